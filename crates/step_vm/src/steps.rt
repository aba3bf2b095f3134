//! The machine: one step of a component's code, from its frame and inputs to the frame and outputs that it leaves.
ghost use Rattle.std.specs.Prelude.{◌≡◌, ◌≤◌, ◌-◌, ◌++◌, [], length, take, replicate, pos, Some, true, slice_get, ◌+◌};
ghost use Rattle.pals_base.specs.SingleStep.{holding};
ghost use Rattle.step_code.specs.proof.CodeRuns.{FitsCode, HasCodeSizes, Leaves, exec, has_entry, what_is_left};
ghost use Rattle.step_code.specs.proof.CodeRuns.{run_from};
ghost use Rattle.step_code.specs.InstructionsPerStep.{silent};
ghost use Rattle.step_code.specs.proof.StackHeights.{Member};
ghost use Rattle.step_code.specs.proof.VerifierRules.{IsVerified};
ghost use Rattle.step_vm.specs.proof.OperandStacks.{stack_of};
ghost use Rattle.step_vm.specs.proof.MachineAnswers.{HasEnded, LeavesBehind, ran};
ghost use Rattle.step_vm.specs.proof.RoomCapacity.{IsRoomOf};

use crate::instruction_effects::{CodeInputs, Continuation, advance};
use crate::room::Room;
use crate::stack::Stack;
use pals_base::{Frame, ItemList, PortValue, Trap};
use step_code::{Code, CodeParts};

/// How a run ends: in a state, or by a trap.
enum RunResult {
    In(u32),
    Trapped(Trap),
}

/// One step of the code at these inputs: overwrites the frame and the outputs with the results, and
/// the frame fits the code again. Does not allocate, and never fails.
pub fn run(
    code: &Code,
    room: &mut Room,
    frame: &mut Frame,
    inputs: &[PortValue],
    outs: &mut [PortValue],
)
    requires room { IsRoomOf code.now room.old }
    requires frame { FitsCode code.now frame.old }
    requires inputs { length inputs.now ≡ code.now.ins }
    requires outs { length outs.old ≡ code.now.outs }
    ensures step { exec code.now frame.old inputs.now ≡ Leaves (record { frame = frame.new; outs = outs.new }) }
    ensures fits { FitsCode code.now frame.new }
    ensures room { room.new ≡ room.old }
{
    take_step(code.parts(), room, frame, inputs, outs);
}

// One step of the code of these parts at these inputs: overwrites the frame and the outputs with the
// results.
fn take_step(
    parts: &CodeParts,
    room: &mut Room,
    frame: &mut Frame,
    inputs: &[PortValue],
    outs: &mut [PortValue],
)
    requires verified { IsVerified parts.now }
    requires room { IsRoomOf parts.now room.old }
    requires frame { FitsCode parts.now frame.old }
    requires inputs { length inputs.now ≡ parts.now.ins }
    requires outs { length outs.old ≡ parts.now.outs }
    ensures step { exec parts.now frame.old inputs.now ≡ Leaves (record { frame = frame.new; outs = outs.new }) }
    ensures room { room.new ≡ room.old }
{
    hold(&mut frame.held, inputs);
    silence(outs);
    if frame.halt.is_some() {
        return;
    }
    let entry = entry_of(parts, frame.state);
    react(parts, entry, room, frame, inputs, outs);
}

// The step of a frame that holds its inputs and is not halted, from the entry of its state.
fn react(
    parts: &CodeParts,
    entry: usize,
    room: &mut Room,
    frame: &mut Frame,
    inputs: &[PortValue],
    outs: &mut [PortValue],
)
    requires verified { IsVerified parts.now }
    requires entry { Member parts.now.entries (Some entry) }
    requires room { IsRoomOf parts.now room.old }
    requires sizes { HasCodeSizes parts.now frame.old inputs.now }
    requires outs { outs.old ≡ silent parts.now }
    ensures step { what_is_left parts.now frame.old (run_from parts.now frame.old inputs.now entry)
        ≡ Leaves (record { frame = frame.new; outs = outs.new }) }
    ensures room { room.new ≡ room.old }
{
    room.stack.clear();
    let slots = room.slots.as_mut_slice();
    begin(slots, frame.vars.as_slice());
    let reads = CodeInputs {
        held: frame.held.as_slice(),
        present: inputs,
    };
    let ended = run_from(parts, entry, &mut room.stack, slots, outs, reads);
    leave(ended, frame, slots, outs);
}

// The result of a run: the state and the variables at its end, or a trap and no outputs.
fn leave(ended: RunResult, frame: &mut Frame, slots: &[i64], outs: &mut [PortValue])
    requires { length frame.old.vars ≤ length slots.now }
    ensures { LeavesBehind ended slots.now frame.old frame.new outs.old outs.new }
{
    match ended {
        RunResult::In(state) => {
            keep(&mut frame.vars, slots);
            frame.state = state;
        }
        RunResult::Trapped(trap) => {
            silence(outs);
            frame.halt = Some(trap);
        }
    }
}

// The place at which the step of a state begins.
fn entry_of(parts: &CodeParts, state: u32) -> usize
    requires { has_entry (slice_get parts.now.entries state) ≡ true }
    ensures { slice_get parts.now.entries state ≡ Some (Some result) }
{
    match parts.entries.get(state as usize).copied() {
        Some(Some(entry)) => entry as usize,
        _ => unreachable!(),
    }
}

// Instructions from an entry on, until one ends the step or traps.
fn run_from(
    parts: &CodeParts,
    entry: usize,
    stack: &mut Stack,
    slots: &mut [i64],
    outs: &mut [PortValue],
    inputs: CodeInputs,
) -> RunResult
    requires verified { IsVerified parts.now }
    requires entry { Member parts.now.entries (Some entry) }
    requires stack { stack.old ≡ stack_of [] (length parts.now.instrs) }
    requires slots { length slots.old ≡ parts.now.vars + parts.now.loops }
    requires outs { length outs.old ≡ parts.now.outs }
    requires held { length inputs.held.now ≡ parts.now.ins }
    requires present { length inputs.present.now ≡ parts.now.ins }
    ensures ended { HasEnded result slots.new outs.new (ran parts.now entry slots.old outs.old inputs.entry) }
    ensures size { stack.new.size ≡ stack.old.size }
{
    let instrs = parts.instrs.as_slice();
    let mut place = entry;
    loop {
        match advance(instrs[place], place, stack, slots, outs, inputs) {
            Continuation::Goes(next) => place = next,
            Continuation::Ends(state) => return RunResult::In(state),
            Continuation::Traps(trap) => return RunResult::Trapped(trap),
        }
    }
}

// Holds each present input.
fn hold(held: &mut ItemList<i64>, inputs: &[PortValue])
    requires { length inputs.now ≡ length held.old }
    ensures { held.new ≡ holding held.old inputs.now }
{
    for at in 0..inputs.len() {
        if let PortValue::Present(value) = inputs[at] {
            held.set(at, value);
        }
    }
}

// Leaves no value on any port.
fn silence(outs: &mut [PortValue])
    ensures { outs.new ≡ replicate (length outs.old) PortValue.Absent }
{
    outs.fill(PortValue::Absent);
}

// The slots at the start: the variables, and 0 for each loop.
fn begin(slots: &mut [i64], vars: &[i64])
    requires { length vars.now ≤ length slots.old }
    ensures { slots.new ≡ vars.now ++ replicate (length slots.old - length vars.now) (pos 0) }
{
    let count = vars.len();
    slots[..count].copy_from_slice(vars);
    slots[count..].fill(0);
}

// The variables at the end: the first slots.
fn keep(vars: &mut ItemList<i64>, slots: &[i64])
    requires { length vars.old ≤ length slots.now }
    ensures { vars.new ≡ take (length vars.old) slots.now }
{
    for at in 0..vars.len() {
        vars.set(at, slots[at]);
    }
}
