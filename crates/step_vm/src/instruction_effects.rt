//! What one instruction does to the stack, the slots and the out ports, and where it leads.
ghost use Rattle.std.specs.Prelude.{◌≡◌, ◌≤◌, ◌<◌, ◌+◌, length, map, Some, slice_get};
ghost use Rattle.pals_base.specs.SingleStep.{is_present};
ghost use Rattle.pals_base.specs.declared.limits.TheConstants.{INSTRUCTIONS};
ghost use Rattle.step_code.specs.proof.StackHeights.{takes};
ghost use Rattle.step_code.specs.proof.SlotsAndPorts.{FindsSlotsAndPorts};
ghost use Rattle.step_vm.specs.proof.MachineAnswers.{Met, GivesResult, GivesBoth, done_by};

use crate::operators::{apply, holds, number_of};
use crate::stack::Stack;
use pals_base::{Op, PortValue, Trap};
use step_code::Instr;

/// The successor of an instruction: a place, the end of the step in a state, or a trap.
#[derive(Clone, Copy)]
pub enum Continuation {
    Goes(usize),
    Ends(u32),
    Traps(Trap),
}

/// What a step reads and never changes: the held inputs, and what the in ports have in this step.
#[derive(Clone, Copy)]
pub struct CodeInputs<'a> {
    pub held: &'a [i64],
    pub present: &'a [PortValue],
}

// Whether the port received an input in this step.
#[inline(always)]
fn is_fresh(present: &[PortValue], port: usize) -> bool
    requires { port < length present.now }
    ensures { slice_get (map is_present present.now) port ≡ Some result }
{
    matches!(present[port], PortValue::Present(_))
}

// A result on the stack, or a trap.
#[inline(always)]
fn give(stack: &mut Stack, value: Result<i64, Trap>, place: usize) -> Continuation
    requires room { length stack.old.numbers < stack.old.size }
    requires small { place < INSTRUCTIONS }
    ensures met { GivesResult result stack.new.numbers value place stack.old.numbers }
    ensures size { stack.new.size ≡ stack.old.size }
{
    match value {
        Ok(number) => {
            stack.push(number);
            Continuation::Goes(place + 1)
        }
        Err(trap) => Continuation::Traps(trap),
    }
}

// The two topmost numbers give way to the result of an operator.
#[inline(always)]
fn two(stack: &mut Stack, op: Op, place: usize) -> Continuation
    requires both { 2 ≤ length stack.old.numbers }
    requires room { length stack.old.numbers ≤ stack.old.size }
    requires small { place < INSTRUCTIONS }
    ensures met { GivesBoth result stack.new.numbers op place stack.old.numbers }
    ensures size { stack.new.size ≡ stack.old.size }
{
    let right = stack.pop();
    let left = stack.pop();
    give(stack, apply(op, left, right), place)
}

/// One instruction, where its operands, its slots and its ports are there.
#[inline(always)]
pub fn advance(
    instr: Instr,
    place: usize,
    stack: &mut Stack,
    slots: &mut [i64],
    outs: &mut [PortValue],
    inputs: CodeInputs,
) -> Continuation
    requires operands { takes instr ≤ length stack.old.numbers }
    requires there { FindsSlotsAndPorts (length slots.old) (length inputs.held.now) (length outs.old) instr }
    requires inputs { length inputs.present.now ≡ length inputs.held.now }
    requires room { length stack.old.numbers < stack.old.size }
    requires small { place < INSTRUCTIONS }
    ensures met { Met result stack.new.numbers slots.new outs.new
        (done_by instr place stack.old.numbers slots.old outs.old inputs.entry) }
    ensures size { stack.new.size ≡ stack.old.size }
{
    match instr {
        Instr::Push(value) => give(stack, Ok(value), place),
        Instr::Load(slot) => give(stack, Ok(slots[slot as usize]), place),
        Instr::Store(slot) => {
            slots[slot as usize] = stack.pop();
            Continuation::Goes(place + 1)
        }
        Instr::Port(port) => give(stack, Ok(inputs.held[port as usize]), place),
        Instr::Fresh(port) => {
            let fresh = is_fresh(inputs.present, port as usize);
            give(stack, Ok(number_of(fresh)), place)
        }
        Instr::Neg => {
            let value = stack.pop();
            give(stack, pals_base::neg(value), place)
        }
        Instr::Abs => {
            let value = stack.pop();
            give(stack, pals_base::abs(value), place)
        }
        Instr::Not => {
            let value = stack.pop();
            give(stack, Ok(number_of(!holds(value))), place)
        }
        Instr::Add => two(stack, Op::Add, place),
        Instr::Sub => two(stack, Op::Sub, place),
        Instr::Mul => two(stack, Op::Mul, place),
        Instr::Quot => two(stack, Op::Quot, place),
        Instr::Mod => two(stack, Op::Mod, place),
        Instr::Rem => two(stack, Op::Rem, place),
        Instr::Eq => two(stack, Op::Eq, place),
        Instr::Ne => two(stack, Op::Ne, place),
        Instr::Lt => two(stack, Op::Lt, place),
        Instr::Le => two(stack, Op::Le, place),
        Instr::Gt => two(stack, Op::Gt, place),
        Instr::Ge => two(stack, Op::Ge, place),
        Instr::And => two(stack, Op::And, place),
        Instr::Or => two(stack, Op::Or, place),
        Instr::Xor => two(stack, Op::Xor, place),
        Instr::Jump(to) => Continuation::Goes(to as usize),
        Instr::JumpZero(to) => {
            if holds(stack.pop()) {
                Continuation::Goes(place + 1)
            } else {
                Continuation::Goes(to as usize)
            }
        }
        Instr::LoopStart {
            slot,
            low,
            high,
            exit,
        } => {
            if high < low {
                return Continuation::Goes(exit as usize);
            }
            slots[slot as usize] = low;
            Continuation::Goes(place + 1)
        }
        Instr::LoopNext { slot, high, to } => {
            let number = slots[slot as usize];
            if number < high {
                slots[slot as usize] = number + 1;
                return Continuation::Goes(to as usize);
            }
            Continuation::Goes(place + 1)
        }
        Instr::Emit(port) => {
            outs[port as usize] = PortValue::Present(stack.pop());
            Continuation::Goes(place + 1)
        }
        Instr::End(state) => Continuation::Ends(state),
    }
}
