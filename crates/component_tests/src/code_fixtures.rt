//! What tests of step code are made with: code from instructions, frames, and steps over one in port and one out
//! port.
ghost use Rattle.std.specs.Prelude.{◌≡◌, IsTrue, slice_get};
ghost use Rattle.step_code.specs.proof.CodeRuns.{FitsCode, has_entry};

use pals_base::{Frame, ItemList, NoMemory, PortValue, Trap};
use std::alloc::Global;
use step_code::{Code, CodeFault, CodeParts, Instr, verify};
use step_vm::{Room, run};

/// Adds the input and 1, and sends the sum.
pub const COUNTER: [Instr; 9] = [
    Instr::Load(0),
    Instr::Port(0),
    Instr::Add,
    Instr::Push(1),
    Instr::Add,
    Instr::Store(0),
    Instr::Load(0),
    Instr::Emit(0),
    Instr::End(0),
];

// Parts with one entry, at 0, one variable and two slots for loops, one in port and one out port.
fn parts(alloc: Global, instrs: &[Instr]) -> Result<CodeParts, NoMemory> {
    Ok(CodeParts {
        instrs: ItemList::from_slice(alloc, instrs)?,
        entries: ItemList::from_slice(alloc, &[Some(0)])?,
        vars: 1,
        loops: 2,
        ins: 1,
        outs: 1,
    })
}

/// Code of these instructions with one entry, at 0, one variable and two slots for loops, one in port and one out port.
pub fn code(alloc: Global, instrs: &[Instr]) -> Result<Code, CodeFault> {
    verify(alloc, parts(alloc, instrs)?)
}

/// A frame in a state, with its variables and the one number that it holds.
pub fn frame(
    alloc: Global,
    state: u32,
    vars: &[i64],
    held: i64,
    halt: Option<Trap>,
) -> Result<Frame, NoMemory> {
    Ok(Frame {
        state,
        vars: ItemList::from_slice(alloc, vars)?,
        held: ItemList::from_slice(alloc, &[held])?,
        halt,
    })
}

// Whether a step of a code may begin in a state.
fn has_entry(code: &Code, state: u32) -> bool
    ensures { result ≡ has_entry (slice_get code.now.entries state) }
{
    let parts = code.parts();
    matches!(parts.entries.get(state as usize).copied(), Some(Some(_)))
}

// Whether a frame fits a code that has one in port and one out port.
fn fits(code: &Code, frame: &Frame) -> bool
    ensures frame { IsTrue result → FitsCode code.now frame.now }
    ensures ins { IsTrue result → code.now.ins ≡ 1 }
    ensures outs { IsTrue result → code.now.outs ≡ 1 }
{
    let parts = code.parts();
    has_entry(code, frame.state)
        && frame.vars.len() == parts.vars as usize
        && frame.held.len() == parts.ins as usize
        && parts.ins == 1
        && parts.outs == 1
}

/// Runs a step of the code from the frame, and returns the sent values; nothing if the frame does not fit the code.
pub fn step(
    alloc: Global,
    code: &Code,
    frame: &mut Frame,
    input: PortValue,
) -> Result<Option<PortValue>, NoMemory> {
    if !fits(code, frame) {
        return Ok(None);
    }
    let mut room = Room::for_code(alloc, code)?;
    let mut outs = [PortValue::Present(77)];
    run(code, &mut room, frame, &[input], &mut outs);
    Ok(Some(outs[0]))
}
