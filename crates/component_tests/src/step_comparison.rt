//! The steps of code, compared with the steps of the behaviour.
use crate::code_fixtures::{frame, step};
use behaviour_sem::fire;
use pals_base::{Behaviour, Frame, NoMemory, PortValue};
use std::alloc::Global;
use step_code::Code;

const NUMBERS: [i64; 7] = [i64::MIN, i64::MIN + 1, -1, 0, 1, 10, i64::MAX];

const INPUTS: [PortValue; 8] = [
    PortValue::Absent,
    PortValue::Present(i64::MIN),
    PortValue::Present(-1),
    PortValue::Present(0),
    PortValue::Present(1),
    PortValue::Present(3),
    PortValue::Present(10),
    PortValue::Present(i64::MAX),
];

fn are_same(left: &Frame, right: &Frame) -> bool {
    left.state == right.state
        && left.vars.as_slice() == right.vars.as_slice()
        && left.held.as_slice() == right.held.as_slice()
        && left.halt == right.halt
}

// Whether a step of the code from a frame leaves what the behaviour's step leaves.
fn steps_agree(
    alloc: Global,
    behaviour: &Behaviour,
    code: &Code,
    before: &mut Frame,
    input: PortValue,
) -> Result<bool, NoMemory> {
    let (after, outs) = fire(alloc, behaviour, before, &[input])?;
    let sent = step(alloc, code, before, input)?;
    Ok(are_same(before, &after) && outs.len() == 1 && outs.get(0).copied() == sent)
}

// Adds the steps that differ from a state with a number in `x`, the same one held, at each input.
fn add_differences(
    wrong: &mut String,
    behaviour: &Behaviour,
    code: &Code,
    state: u32,
    number: i64,
) -> Result<(), NoMemory> {
    let alloc = *wrong.allocator();
    for input in &INPUTS {
        let mut before = frame(alloc, state, &[number, 1], number, None)?;
        if !steps_agree(alloc, behaviour, code, &mut before, *input)? {
            writeln!(wrong, "x and held {number}, input {input:?}")?;
        }
    }
    Ok(())
}

/// The steps that differ from a state, each in a line.
pub fn compared(
    alloc: Global,
    behaviour: &Behaviour,
    code: &Code,
    state: u32,
) -> Result<String, NoMemory> {
    let mut wrong = String::new(alloc);
    for number in &NUMBERS {
        add_differences(&mut wrong, behaviour, code, state, *number)?;
    }
    Ok(wrong)
}
