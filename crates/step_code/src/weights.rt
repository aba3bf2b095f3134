//! How many instructions one step may take.
ghost use Rattle.std.specs.Prelude.{◌≡◌, ◌+◌, ◌-◌, ◌<◌, map, option_to_list, slice_index_or, length, IfOk, Some};
ghost use Rattle.step_code.specs.proof.InnermostLoops.{AreInnermost};
ghost use Rattle.step_code.specs.SuccessorsAndWeights.{forward_successors, greatest, weight_at, heaviest, entry_weight};
ghost use Rattle.step_code.specs.SuccessorsAndWeights.{weight_of};
ghost use Rattle.step_code.specs.proof.StackHeights.{Member};
ghost use Rattle.step_code.specs.proof.VerifierRules.{IsVerified};
ghost use Rattle.step_code.specs.proof.VerifierIntermediateResults.{AreThere};
ghost use Rattle.step_code.specs.CappedWeights.{capped, AreWeights, AreBest};
ghost use Rattle.pals_base.specs.declared.limits.TheConstants.{INSTRUCTIONS};

use crate::instr::{CodeParts, Instr};
use crate::loops::LoopSpan;
use pals_base::NoMemory;
use std::alloc::Global;

/// The maximum weight of a path from an entry, capped at u64's maximum.
pub fn most_weight(
    alloc: Global,
    parts: &CodeParts,
    innermost: &[Option<LoopSpan>],
) -> Result<u64, NoMemory>
    requires verified { IsVerified parts.now }
    requires innermost { AreInnermost parts.now.instrs innermost.now }
    requires count { length innermost.now ≡ length parts.now.instrs }
    ensures { IfOk result (λ most. most ≡ capped (weight_of parts.now)) }
{
    let best = best_weights(alloc, parts, innermost)?;
    let mut most: u64 = 0;
    for entry in parts.entries.as_slice() {
        most = most.max(entry_weight(parts, &best, *entry));
    }
    Ok(most)
}

// The maximum weight of a path from an entry, if there is one.
fn entry_weight(parts: &CodeParts, best: &[u64], entry: Option<u32>) -> u64
    requires verified { IsVerified parts.now }
    requires best { AreBest parts.now.instrs 0 best.now }
    requires entry { Member parts.now.entries entry }
    ensures { result ≡ capped (entry_weight parts.now.instrs entry) }
{
    match entry {
        None => 0,
        Some(place) => best[place as usize],
    }
}

// The maximum weight of the paths from each place.
fn best_weights(
    alloc: Global,
    parts: &CodeParts,
    innermost: &[Option<LoopSpan>],
) -> Result<Vec<u64>, NoMemory>
    requires verified { IsVerified parts.now }
    requires innermost { AreInnermost parts.now.instrs innermost.now }
    requires count { length innermost.now ≡ length parts.now.instrs }
    ensures { IfOk result (λ best. AreBest parts.now.instrs 0 best.items) }
{
    let weights = weights(alloc, parts, innermost)?;
    let mut best = vec![in alloc; 0; parts.instrs.len()]?;
    let mut place = parts.instrs.len();
    while place > 0 {
        place -= 1;
        best[place] = best_at(parts, &weights, &best, place);
    }
    Ok(best)
}

// The maximum weight of the paths from `place`, given the weights from the later places in `best`.
fn best_at(parts: &CodeParts, weights: &[u64], best: &[u64], place: usize) -> u64
    requires verified { IsVerified parts.now }
    requires weights { AreWeights parts.now.instrs weights.now }
    requires count { length weights.now ≡ length parts.now.instrs }
    requires best { AreBest parts.now.instrs (place + 1) best.now }
    requires within { place < length parts.now.instrs }
    ensures { result ≡ capped (heaviest parts.now.instrs (length parts.now.instrs - place) place) }
{
    let instr = parts.instrs.as_slice()[place];
    weights[place].saturating_add(best_onward(best, place, instr))
}

// The maximum of the numbers at the places to which an instruction leads.
fn best_onward(best: &[u64], place: usize, instr: Instr) -> u64
    requires small { place < INSTRUCTIONS }
    requires there { AreThere (forward_successors place (Some instr)) (length best.now) }
    ensures { result ≡ greatest (map (λ to. slice_index_or best.now to 0) (forward_successors place (Some instr))) }
{
    number_at(best, instr.jump()).max(number_at(best, instr.next(place)))
}

// The number at a place, if there is one.
fn number_at(best: &[u64], place: Option<usize>) -> u64
    requires { AreThere (option_to_list place) (length best.now) }
    ensures { result ≡ greatest (map (λ to. slice_index_or best.now to 0) (option_to_list place)) }
{
    match place {
        None => 0,
        Some(place) => best[place],
    }
}

// What each instruction weighs.
fn weights(
    alloc: Global,
    parts: &CodeParts,
    innermost: &[Option<LoopSpan>],
) -> Result<Vec<u64>, NoMemory>
    requires verified { IsVerified parts.now }
    requires innermost { AreInnermost parts.now.instrs innermost.now }
    requires count { length innermost.now ≡ length parts.now.instrs }
    ensures each { IfOk result (λ weights. AreWeights parts.now.instrs weights.items) }
    ensures count { IfOk result (λ weights. length weights.items ≡ length parts.now.instrs) }
{
    let mut weights = Vec::new(alloc);
    for place in 0..parts.instrs.len() {
        let weight = weight_at(parts, innermost, &weights, place);
        weights.push(weight)?;
    }
    Ok(weights)
}

// The weight of the instruction at `place`, given the earlier weights in `weights`: the turns of the
// innermost loop, times the weight of its start.
fn weight_at(
    parts: &CodeParts,
    innermost: &[Option<LoopSpan>],
    weights: &[u64],
    place: usize,
) -> u64
    requires verified { IsVerified parts.now }
    requires innermost { AreInnermost parts.now.instrs innermost.now }
    requires count { length innermost.now ≡ length parts.now.instrs }
    requires weights { AreWeights parts.now.instrs weights.now }
    requires known { length weights.now ≡ place }
    requires within { place < length parts.now.instrs }
    ensures { result ≡ capped (weight_at parts.now.instrs place) }
{
    match innermost[place] {
        None => 1,
        Some(found) => found.turns().saturating_mul(weights[found.start]),
    }
}
