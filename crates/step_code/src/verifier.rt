//! The verifier: the code of parts, or their first fault.
ghost use Rattle.std.specs.Prelude.{◌≡◌, ◌<◌, ◌≤◌, ◌+◌, ℕ, Bool, false, length, IfOk, IfErr, OnOk};
ghost use Rattle.step_code.specs.proof.InnermostLoops.{AreInnermost};
ghost use Rattle.step_code.specs.proof.VerifierRules.{is_bad_entry, enters_badly, IsCleanBelow, IsFaultOf, IsVerified};
ghost use Rattle.step_code.specs.proof.VerifierIntermediateResults.{IsLeast, or_bad, AreHeights};
ghost use Rattle.pals_base.specs.declared.limits.TheConstants.{INSTRUCTIONS};

use crate::code::Code;
use crate::fault::CodeFault;
use crate::instr::CodeParts;
use crate::instruction_rules::{jumps_back, jumps_badly, misses_slot};
use crate::loops::{LoopSpan, innermost};
use crate::stack_heights::{entry_heights, pass_on};
use crate::weights::most_weight;
use pals_base::limits::INSTRUCTIONS;
use std::alloc::Global;

/// The code of these parts, or their first fault: too many instructions, or else the first place
/// at which a rule finds something, and the first rule there.
pub fn verify(alloc: Global, parts: CodeParts) -> Result<Code, CodeFault>
    ensures code { IfOk result (λ code. code ≡ parts) }
    ensures verified { OnOk result (IsVerified parts) }
    ensures fault { IfErr result (λ fault. IsFaultOf parts fault) }
{
    let length = parts.instrs.len();
    if length > INSTRUCTIONS {
        return Err(CodeFault::TooLong {
            length: length as u64,
        });
    }
    let innermost = innermost(alloc, parts.instrs.as_slice())?;
    check(alloc, &parts, &innermost)?;
    let most = most_weight(alloc, &parts, &innermost)?;
    Ok(Code::new(parts, most))
}

// What the rules find first.
fn check(alloc: Global, parts: &CodeParts, innermost: &[Option<LoopSpan>]) -> Result<(), CodeFault>
    requires short { length parts.now.instrs ≤ INSTRUCTIONS }
    requires innermost { AreInnermost parts.now.instrs innermost.now }
    requires count { length innermost.now ≡ length parts.now.instrs }
    ensures verified { OnOk result (IsVerified parts.now) }
    ensures fault { IfErr result (λ fault. IsFaultOf parts.now fault) }
{
    let bad_entry = first_bad_entry(parts, innermost);
    let mut heights = entry_heights(alloc, parts)?;
    for at in 0..parts.instrs.len() {
        if bad_entry == Some(at) {
            return Err(CodeFault::BadJump { at });
        }
        check_place(parts, innermost, &mut heights, at)?;
    }
    match bad_entry {
        None => Ok(()),
        Some(at) => Err(CodeFault::BadJump { at }),
    }
}

// What the rules find at a place where no entry is bad, and below which they find nothing.
fn check_place(
    parts: &CodeParts,
    innermost: &[Option<LoopSpan>],
    heights: &mut [Option<usize>],
    at: usize,
) -> Result<(), CodeFault>
    requires short { length parts.now.instrs ≤ INSTRUCTIONS }
    requires innermost { AreInnermost parts.now.instrs innermost.now }
    requires count { length innermost.now ≡ length parts.now.instrs }
    requires within { at < length parts.now.instrs }
    requires clean { IsCleanBelow parts.now at }
    requires entry { is_bad_entry parts.now.instrs parts.now.entries at ≡ false }
    requires heights { AreHeights parts.now.instrs parts.now.entries at heights.old }
    ensures clean { OnOk result (IsCleanBelow parts.now (at + 1)) }
    ensures heights { OnOk result (AreHeights parts.now.instrs parts.now.entries (at + 1) heights.new) }
    ensures fault { IfErr result (λ fault. IsFaultOf parts.now fault) }
{
    let instr = parts.instrs.as_slice()[at];
    if jumps_badly(parts, innermost, at, instr) {
        return Err(CodeFault::BadJump { at });
    }
    if jumps_back(parts.instrs.as_slice(), at, instr) {
        return Err(CodeFault::BackJump { at });
    }
    if misses_slot(parts, innermost, at, instr) {
        return Err(CodeFault::BadSlot { at });
    }
    match heights[at] {
        None => Ok(()),
        Some(height) => pass_on(heights, at, instr, height),
    }
}

// The smallest entry that is not a place, or is in a body.
fn first_bad_entry(parts: &CodeParts, innermost: &[Option<LoopSpan>]) -> Option<usize>
    requires innermost { AreInnermost parts.now.instrs innermost.now }
    requires count { length innermost.now ≡ length parts.now.instrs }
    ensures { IsLeast (is_bad_entry parts.now.instrs parts.now.entries) result }
{
    let mut first = None;
    for entry in parts.entries.as_slice() {
        if let Some(place) = entry {
            first = least_bad(parts, innermost, first, *place as usize);
        }
    }
    first
}

// The least of an entry, where it is bad, and the bad ones before it.
fn least_bad(
    parts: &CodeParts,
    innermost: &[Option<LoopSpan>],
    first: Option<usize>,
    entry: usize,
) -> Option<usize>
    requires innermost { AreInnermost parts.now.instrs innermost.now }
    requires count { length innermost.now ≡ length parts.now.instrs }
    ensures { (test : ℕ → Bool) → IsLeast test first → IsLeast (or_bad parts.now.instrs test entry) result }
{
    if !enters_badly(parts, innermost, entry) {
        return first;
    }
    if let Some(other) = first
        && other <= entry
    {
        return first;
    }
    Some(entry)
}

fn enters_badly(parts: &CodeParts, innermost: &[Option<LoopSpan>], entry: usize) -> bool
    requires innermost { AreInnermost parts.now.instrs innermost.now }
    requires count { length innermost.now ≡ length parts.now.instrs }
    ensures { result ≡ enters_badly parts.now.instrs entry }
{
    entry >= parts.instrs.len() || innermost[entry].is_some()
}
