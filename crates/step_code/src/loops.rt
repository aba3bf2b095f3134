//! The loops of instructions.
ghost use Rattle.std.specs.Prelude.{◌≡◌, ◌<◌, ◌^◌, ◌-◌, length, min, IfOk};
ghost use Rattle.step_code.specs.Loops.{closes, if_loop, loop_at, turns_of};
ghost use Rattle.step_code.specs.proof.InnermostLoops.{AreInnermost, innermost};

use crate::instr::{Instr, instr_at};
use pals_base::NoMemory;
use std::alloc::Global;

/// A loop: the places of its LoopStart and of its exit, its slot, and its first and its last
/// number. Its body is the places between start and exit.
#[derive(Clone, Copy)]
pub struct LoopSpan {
    pub start: usize,
    pub exit: usize,
    pub slot: u32,
    pub low: i64,
    pub high: i64,
}

impl LoopSpan {
    /// The number of turns of the body, capped at u64's maximum.
    pub fn turns(self) -> u64
        ensures { result ≡ min (turns_of self) (2 ^ 64 - 1) }
    {
        if self.high < self.low {
            0
        } else {
            self.high.abs_diff(self.low).saturating_add(1)
        }
    }

    // This loop, where it is one of the instructions.
    fn if_closed(self, instrs: &[Instr]) -> Option<LoopSpan>
        requires { self.start < 2 ^ 63 }
        ensures { result ≡ if_loop instrs.now self }
    {
        if self.exit == 0 {
            return None;
        }
        if self.is_closed_by(instr_at(instrs, self.exit - 1)) {
            Some(self)
        } else {
            None
        }
    }

    // Whether an instruction is the LoopNext of a loop that starts here.
    fn is_closed_by(self, instr: Option<Instr>) -> bool
        requires { self.start < 2 ^ 63 }
        ensures { result ≡ closes self instr }
    {
        match instr {
            Some(Instr::LoopNext { slot, high, to }) => {
                slot == self.slot && high == self.high && to as usize == self.start + 1
            }
            _ => false,
        }
    }
}

/// The loop that starts at a place.
pub fn loop_at(instrs: &[Instr], place: usize) -> Option<LoopSpan>
    ensures { result ≡ loop_at instrs.now place }
{
    let Some(
        Instr::LoopStart {
            slot,
            low,
            high,
            exit,
        },
    ) = instr_at(instrs, place)
    else {
        return None;
    };
    let candidate = LoopSpan {
        start: place,
        exit: exit as usize,
        slot,
        low,
        high,
    };
    candidate.if_closed(instrs)
}

/// For each place the loop with the highest start in whose body it lies.
pub fn innermost(alloc: Global, instrs: &[Instr]) -> Result<Vec<Option<LoopSpan>>, NoMemory>
    ensures each { IfOk result (λ found. AreInnermost instrs.now found.items) }
    ensures count { IfOk result (λ found. length found.items ≡ length instrs.now) }
{
    let mut found = Vec::new(alloc);
    for _place in 0..instrs.len() {
        let next = innermost_at(instrs, &found);
        found.push(next)?;
    }
    Ok(found)
}

// The loop with the highest start whose body contains the next place, given the loops of the places
// before it: the loop that starts just before it, or else one around the place before, is the first
// candidate, and then the loops around that one.
fn innermost_at(instrs: &[Instr], found: &[Option<LoopSpan>]) -> Option<LoopSpan>
    requires { AreInnermost instrs.now found.now }
    ensures { result ≡ innermost instrs.now (length found.now) }
{
    let place = found.len();
    if place == 0 {
        return None;
    }
    let mut candidate = loop_at(instrs, place - 1).or(found[place - 1]);
    while let Some(open) = candidate {
        if place < open.exit {
            return candidate;
        }
        candidate = found[open.start];
    }
    None
}
