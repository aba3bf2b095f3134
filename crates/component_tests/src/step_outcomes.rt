//! What the steps of code leave.
use crate::code_fixtures::{COUNTER, code, frame, step};
use pals_base::{Frame, NoMemory, PortValue, Trap};
use std::alloc::Global;
use step_code::{CodeFault, Instr};

// Adds the numbers from 1 to 4 three times.
const LOOPS: [Instr; 9] = [
    Instr::LoopStart {
        slot: 1,
        low: -1,
        high: 1,
        exit: 8,
    },
    Instr::LoopStart {
        slot: 2,
        low: 1,
        high: 4,
        exit: 7,
    },
    Instr::Load(0),
    Instr::Load(2),
    Instr::Add,
    Instr::Store(0),
    Instr::LoopNext {
        slot: 2,
        high: 4,
        to: 2,
    },
    Instr::LoopNext {
        slot: 1,
        high: 1,
        to: 1,
    },
    Instr::End(0),
];

// Sends 1, sets the variable, and divides by the input.
const DIVISION: [Instr; 9] = [
    Instr::Push(1),
    Instr::Emit(0),
    Instr::Push(8),
    Instr::Store(0),
    Instr::Push(1),
    Instr::Port(0),
    Instr::Quot,
    Instr::Store(0),
    Instr::End(0),
];

// The variable, the held input, the trap, and the sent value.
type RunOutcome = (i64, i64, Option<Trap>, PortValue);

// Instructions, the trap of the frame before, the input, and what a step leaves.
type RunCase = (&'static [Instr], Option<Trap>, PortValue, RunOutcome);

const CASES: [RunCase; 4] = [
    (
        &COUNTER,
        None,
        PortValue::Present(2),
        (7, 2, None, PortValue::Present(7)),
    ),
    // A halted frame stays.
    (
        &COUNTER,
        Some(Trap::Overflow),
        PortValue::Present(2),
        (4, 2, Some(Trap::Overflow), PortValue::Absent),
    ),
    (
        &LOOPS,
        None,
        PortValue::Absent,
        (34, 0, None, PortValue::Absent),
    ),
    (
        &DIVISION,
        None,
        PortValue::Absent,
        (4, 0, Some(Trap::ZeroDivisor), PortValue::Absent),
    ),
];

fn is_left(frame: &Frame, out: Option<PortValue>, left: RunOutcome) -> bool {
    let (variable, held, halt, sent) = left;
    frame.vars.as_slice() == [variable].as_slice()
        && frame.held.as_slice() == [held].as_slice()
        && frame.halt == halt
        && out == Some(sent)
}

// What a step of these instructions from a frame sends.
fn sent(
    alloc: Global,
    instrs: &[Instr],
    frame: &mut Frame,
    input: PortValue,
) -> Result<Option<PortValue>, CodeFault> {
    let code = code(alloc, instrs)?;
    Ok(step(alloc, &code, frame, input)?)
}

// Whether a step from a frame with variable 4 and held input 0 has the expected result.
fn leaves(alloc: Global, case: &RunCase) -> Result<bool, CodeFault> {
    let (instrs, halt, input, left) = *case;
    let mut frame = frame(alloc, 0, &[4], 0, halt)?;
    let out = sent(alloc, instrs, &mut frame, input)?;
    Ok(is_left(&frame, out, left))
}

/// The cases whose step leaves something else, each in a line.
pub fn wrong_steps(alloc: Global) -> Result<String, NoMemory> {
    let mut wrong = String::new(alloc);
    for case in &CASES {
        if leaves(alloc, case) != Ok(true) {
            writeln!(wrong, "{case:?}")?;
        }
    }
    Ok(wrong)
}
