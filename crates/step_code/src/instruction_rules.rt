//! The rules on jumps, loops, slots and ports, at one instruction.
ghost use Rattle.std.specs.Prelude.{◌≡◌, ◌<◌, ◌+◌, not, Some, length, slice_get};
ghost use Rattle.step_code.specs.proof.InnermostLoops.{AreInnermost, ends_by, starts_from};
ghost use Rattle.step_code.specs.proof.VerifierRules.{strays, lacks_next, jumps_badly, jumps_back, lacks_loop};
ghost use Rattle.step_code.specs.proof.VerifierRules.{ends_loop, misses_slot, misses_loop_slot, is_no_loop_slot};
ghost use Rattle.step_code.specs.proof.VerifierRules.{IsCleanBelow};
ghost use Rattle.step_code.specs.proof.CodeRuns.{has_entry};

use crate::instr::{CodeParts, Instr};
use crate::loops::{LoopSpan, loop_at};

/// Whether an instruction jumps to a missing place, or into or out of a body, or has no next instruction.
pub fn jumps_badly(
    parts: &CodeParts,
    innermost: &[Option<LoopSpan>],
    place: usize,
    instr: Instr,
) -> bool
    requires clean { IsCleanBelow parts.now place }
    requires innermost { AreInnermost parts.now.instrs innermost.now }
    requires count { length innermost.now ≡ length parts.now.instrs }
    requires within { place < length parts.now.instrs }
    ensures { result ≡ jumps_badly parts.now.instrs place instr }
{
    let badly = match instr.jump() {
        None => false,
        Some(to) => strays(parts, innermost, place, to),
    };
    badly || lacks_next(parts, place, instr)
}

// Whether an instruction that may fall through has no next instruction.
fn lacks_next(parts: &CodeParts, place: usize, instr: Instr) -> bool
    requires { place < length parts.now.instrs }
    ensures { result ≡ lacks_next parts.now.instrs place instr }
{
    let length = parts.instrs.len();
    match instr.next(place) {
        None => false,
        Some(next) => next >= length,
    }
}

// Whether a jump goes to no place, or into or out of a body. Of two places the bodies round the
// lower one are nested, since no rule finds anything below it, so the innermost one ends first.
fn strays(parts: &CodeParts, innermost: &[Option<LoopSpan>], place: usize, to: usize) -> bool
    requires clean { IsCleanBelow parts.now place }
    requires innermost { AreInnermost parts.now.instrs innermost.now }
    requires count { length innermost.now ≡ length parts.now.instrs }
    requires within { place < length parts.now.instrs }
    ensures { result ≡ strays parts.now.instrs place to }
{
    if to >= parts.instrs.len() {
        return true;
    }
    if place < to {
        ends_by(innermost[place], to) || starts_from(innermost[to], place)
    } else {
        ends_by(innermost[to], place) || starts_from(innermost[place], to)
    }
}

fn ends_by(found: Option<LoopSpan>, place: usize) -> bool
    ensures { result ≡ ends_by found place }
{
    match found {
        None => false,
        Some(found) => found.exit <= place,
    }
}

fn starts_from(found: Option<LoopSpan>, place: usize) -> bool
    ensures { result ≡ starts_from found place }
{
    match found {
        None => false,
        Some(found) => place <= found.start,
    }
}

/// Whether an instruction jumps to a place that is not greater, or is part of no loop.
pub fn jumps_back(instrs: &[Instr], place: usize, instr: Instr) -> bool
    requires { place < length instrs.now }
    ensures { result ≡ jumps_back instrs.now place instr }
{
    let back = match instr.jump() {
        None => false,
        Some(to) => to <= place,
    };
    back || lacks_loop(instrs, place, instr)
}

// Whether an instruction is not part of a loop, but should be.
fn lacks_loop(instrs: &[Instr], place: usize, instr: Instr) -> bool
    requires { place < length instrs.now }
    ensures { result ≡ lacks_loop instrs.now place instr }
{
    match instr {
        Instr::LoopStart { .. } => loop_at(instrs, place).is_none(),
        Instr::LoopNext { to, .. } => !ends_loop(instrs, place, to as usize),
        _ => false,
    }
}

// Whether a loop ends at a place by a way back to `to`.
fn ends_loop(instrs: &[Instr], place: usize, to: usize) -> bool
    requires { place < length instrs.now }
    ensures { result ≡ ends_loop instrs.now place to }
{
    if to == 0 {
        return false;
    }
    match loop_at(instrs, to - 1) {
        None => false,
        Some(found) => found.exit == place + 1,
    }
}

/// Whether an instruction names a slot, a port or a state that is not there.
pub fn misses_slot(
    parts: &CodeParts,
    innermost: &[Option<LoopSpan>],
    place: usize,
    instr: Instr,
) -> bool
    requires clean { IsCleanBelow parts.now place }
    requires innermost { AreInnermost parts.now.instrs innermost.now }
    requires count { length innermost.now ≡ length parts.now.instrs }
    requires within { place < length parts.now.instrs }
    ensures { result ≡ misses_slot parts.now place instr }
{
    match instr {
        Instr::Load(slot) => slot as u64 >= slots(parts),
        Instr::Store(slot) => slot >= parts.vars,
        Instr::Port(port) | Instr::Fresh(port) => port >= parts.ins,
        Instr::Emit(port) => port >= parts.outs,
        Instr::LoopStart { slot, .. } => misses_loop_slot(parts, innermost, place, slot),
        Instr::LoopNext { slot, .. } => is_no_loop_slot(parts, slot),
        Instr::End(state) => !has_entry(parts, state),
        _ => false,
    }
}

// How many slots there are.
fn slots(parts: &CodeParts) -> u64
    ensures { result ≡ parts.now.vars + parts.now.loops }
{
    parts.vars as u64 + parts.loops as u64
}

// Whether no loop may have the slot.
fn is_no_loop_slot(parts: &CodeParts, slot: u32) -> bool
    ensures { result ≡ is_no_loop_slot parts.now slot }
{
    slot < parts.vars || slot as u64 >= slots(parts)
}

// Whether no loop may have the slot, or one round the place has it.
fn misses_loop_slot(
    parts: &CodeParts,
    innermost: &[Option<LoopSpan>],
    place: usize,
    slot: u32,
) -> bool
    requires clean { IsCleanBelow parts.now place }
    requires innermost { AreInnermost parts.now.instrs innermost.now }
    requires count { length innermost.now ≡ length parts.now.instrs }
    requires within { place < length parts.now.instrs }
    ensures { result ≡ misses_loop_slot parts.now place slot }
{
    if is_no_loop_slot(parts, slot) {
        return true;
    }
    let mut round = innermost[place];
    while let Some(found) = round {
        if found.slot == slot {
            return true;
        }
        round = innermost[found.start];
    }
    false
}

fn has_entry(parts: &CodeParts, state: u32) -> bool
    ensures { result ≡ has_entry (slice_get parts.now.entries state) }
{
    matches!(parts.entries.get(state as usize).copied(), Some(Some(_)))
}
