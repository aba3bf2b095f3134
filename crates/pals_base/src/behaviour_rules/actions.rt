//! Checks the types of actions and the lengths of their loops.
ghost use Rattle.std.specs.Prelude.{◌≡◌, ◌≤◌, ◌+◌, ◌*◌, IfOk, IsTrue, slice_get};
ghost use Rattle.pals_base.specs.proof.TreeViews.{action_of, actions_along, branches_along};
ghost use Rattle.pals_base.specs.TypingRules.{suits_variable, suits_port, turns, is_short, is_sound, are_sound};
ghost use Rattle.pals_base.specs.TypingRules.{branches_are_sound};

use crate::basic_types::NoMemory;
use crate::behaviour::{Act, BehaviourParts, Branch};
use crate::expression_kinds::Kinds;
use crate::limits::{NESTED_TURNS, TURNS};
use std::alloc::AllocError;

// Whether a value with these types can be assigned to a variable, which must be declared.
fn suits_variable(parts: &BehaviourParts, variable: u32, kinds: Kinds) -> bool
    ensures { result ≡ suits_variable (slice_get parts.now.vars variable) kinds }
{
    match parts.vars.get(variable as usize) {
        None => false,
        Some(declared) => kinds.allows(declared.kind),
    }
}

// Whether a value with these types can be sent at an out port.
fn suits_port(parts: &BehaviourParts, port: u32, kinds: Kinds) -> bool
    ensures { result ≡ suits_port (slice_get parts.now.outs port) kinds }
{
    match parts.outs.get(port as usize) {
        None => false,
        Some(declared) => kinds.allows(declared.kind),
    }
}

// The number of iterations of a loop.
fn turns(low: i64, high: i64) -> u128
    ensures { result ≡ turns low high }
{
    if high < low {
        return 0;
    }
    (i128::from(high) - i128::from(low) + 1) as u128
}

// Whether a loop has at most 1,000 iterations, and at most 10,000 multiplied with the enclosing loops.
fn is_short(turns: u128, around: u64) -> bool
    requires { around ≤ NESTED_TURNS }
    ensures { result ≡ is_short turns around }
{
    turns <= u128::from(TURNS) && u128::from(around) * turns <= u128::from(NESTED_TURNS)
}

// The iterations of a short loop, multiplied with those around it.
fn together(turns: u128, around: u64) -> u64
    requires below { around ≤ NESTED_TURNS }
    requires short { IsTrue (is_short turns around) }
    ensures value { result ≡ around * turns }
    ensures most { result ≤ NESTED_TURNS }
{
    around * turns as u64
}

// The nesting depth inside one more loop, if it fits the type.
fn deeper(loops: usize) -> Result<usize, NoMemory>
    ensures { IfOk result (λ more. more ≡ loops + 1) }
{
    loops.checked_add(1).ok_or(AllocError)
}

/// Returns whether actions are well typed in a behaviour with these parts and their loops are short, within
/// `loops` loops with `around` iterations in total. The recursion is as deep as the tree. Errors: out of memory
/// for a tree whose depth does not fit `usize`.
#[cycle(sound_act)]
pub fn are_sound(
    acts: &[Act],
    parts: &BehaviourParts,
    loops: usize,
    around: u64,
) -> Result<bool, NoMemory>
    requires { around ≤ NESTED_TURNS }
    ensures { IfOk result (λ sound. sound ≡ are_sound (actions_along acts.now) parts.now loops around) }
{
    for act in acts {
        if !is_sound(act, parts, loops, around)? {
            return Ok(false);
        }
    }
    Ok(true)
}

#[cycle(sound_act)]
fn is_sound(act: &Act, parts: &BehaviourParts, loops: usize, around: u64) -> Result<bool, NoMemory>
    requires { around ≤ NESTED_TURNS }
    ensures { IfOk result (λ sound. sound ≡ is_sound (action_of act.now) parts.now loops around) }
{
    match act {
        Act::Assign { variable, value } => {
            Ok(suits_variable(parts, *variable, value.kinds(parts, loops)))
        }
        Act::Emit { port, value } => Ok(suits_port(parts, *port, value.kinds(parts, loops))),
        Act::If {
            branches,
            otherwise,
        } => Ok(
            branches_are_sound(branches, parts, loops, around)?
                && are_sound(otherwise, parts, loops, around)?,
        ),
        Act::For { low, high, body } => {
            let turns = turns(*low, *high);
            if !is_short(turns, around) {
                return Ok(false);
            }
            are_sound(body, parts, deeper(loops)?, together(turns, around))
        }
    }
}

#[cycle(sound_act)]
fn branches_are_sound(
    branches: &[Branch],
    parts: &BehaviourParts,
    loops: usize,
    around: u64,
) -> Result<bool, NoMemory>
    requires { around ≤ NESTED_TURNS }
    ensures { IfOk result (λ sound. sound ≡ branches_are_sound (branches_along branches.now) parts.now loops around) }
{
    for branch in branches {
        if !branch.guard.kinds(parts, loops).boolean
            || !are_sound(&branch.acts, parts, loops, around)?
        {
            return Ok(false);
        }
    }
    Ok(true)
}
