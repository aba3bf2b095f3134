//! The stack heights at the places of a code, from its entries on, passed on by one instruction after the other.
ghost use Rattle.std.specs.Prelude.{◌≤◌, ◌<◌, ◌↔◌, length, option_to_list, IfOk, IsTrue, Some};
ghost use Rattle.step_code.specs.SuccessorsAndWeights.{forward_successors};
ghost use Rattle.step_code.specs.proof.VerifierIntermediateResults.{AreHeights, Clashes, AreThere, AreSet, Passed};
ghost use Rattle.pals_base.specs.declared.limits.TheConstants.{INSTRUCTIONS};

use crate::fault::CodeFault;
use crate::instr::{CodeParts, Instr};
use pals_base::NoMemory;
use std::alloc::Global;

/// The heights that the entries give.
pub fn entry_heights(alloc: Global, parts: &CodeParts) -> Result<Vec<Option<usize>>, NoMemory>
    ensures { IfOk result (λ heights. AreHeights parts.now.instrs parts.now.entries 0 heights.items) }
{
    let length = parts.instrs.len();
    let mut heights = vec![in alloc; None; length]?;
    for entry in parts.entries.as_slice() {
        if let Some(place) = entry {
            let place = *place as usize;
            if place < length {
                heights[place] = Some(0);
            }
        }
    }
    Ok(heights)
}

/// Gives the places to which an instruction leads the height after it.
pub fn pass_on(
    heights: &mut [Option<usize>],
    at: usize,
    instr: Instr,
    height: usize,
) -> Result<(), CodeFault>
    requires small { at < INSTRUCTIONS }
    requires low { height ≤ at }
    requires there { AreThere (forward_successors at (Some instr)) (length heights.old) }
    ensures { Passed heights.old heights.new at instr height result }
{
    if height < instr.takes() {
        return Err(CodeFault::Underflow { at });
    }
    let after = height - instr.takes() + instr.gives();
    let (jump, next) = (instr.jump(), instr.next(at));
    if has_other(heights, instr.back(), after)
        || has_other(heights, jump, after)
        || has_other(heights, next, after)
    {
        return Err(CodeFault::HeightsDiffer { at });
    }
    set(heights, jump, after);
    set(heights, next, after);
    Ok(())
}

// Whether a place, if there is one, has another height.
fn has_other(heights: &[Option<usize>], place: Option<usize>, height: usize) -> bool
    ensures { IsTrue result ↔ Clashes heights.now (option_to_list place) height }
{
    let Some(place) = place else {
        return false;
    };
    match heights.get(place).copied() {
        Some(Some(other)) => other != height,
        _ => false,
    }
}

// Gives a place, if there is one, the height.
fn set(heights: &mut [Option<usize>], place: Option<usize>, height: usize)
    requires { AreThere (option_to_list place) (length heights.old) }
    ensures { AreSet heights.old heights.new (option_to_list place) height }
{
    if let Some(place) = place {
        heights[place] = Some(height);
    }
}
