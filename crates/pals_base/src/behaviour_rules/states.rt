//! Checks the transitions that leave each state, and that each step ends.
ghost use Rattle.std.specs.Prelude.{◌≡◌, ◌||◌, ◌+◌, IfOk, length, map, filter, nat_eq, option_copied};
ghost use Rattle.std.specs.List.{list_all};
ghost use Rattle.pals_base.specs.SingleStep.{completes, is_complete};
ghost use Rattle.pals_base.specs.UpwardNumbers.{upwards};
ghost use Rattle.pals_base.specs.proof.CycleSearchMarks.{settles, marked, settles_next};
ghost use Rattle.pals_base.specs.BehaviourRules.{dispatch_count, ends_unguarded, has_ways};

use crate::basic_types::NoMemory;
use crate::behaviour::{BehaviourParts, Guard, StateDecl, Transition};
use std::alloc::Global;

// Whether a step ends in a state. It also ends in an undeclared state.
fn completes(state: Option<&StateDecl>) -> bool
    ensures { result ≡ completes (option_copied state.entry) }
{
    match state {
        None => true,
        Some(state) => state.complete,
    }
}

// The number of transitions at the dispatch that leave a state.
fn dispatch_count(transitions: &[Transition], state: usize) -> usize
    ensures { result ≡ dispatch_count (filter (λ e. nat_eq e.source state) transitions.now) }
{
    let mut count = 0;
    for transition in transitions {
        if transition.source as usize == state && matches!(transition.guard, Guard::Dispatch) {
            count += 1;
        }
    }
    count
}

// Whether transitions leave a state, the last of them without a guard.
fn ends_unguarded(transitions: &[Transition], state: usize) -> bool
    ensures { result ≡ ends_unguarded (filter (λ e. nat_eq e.source state) transitions.now) }
{
    let mut unguarded = false;
    for transition in transitions {
        if transition.source as usize == state {
            unguarded = matches!(transition.guard, Guard::Always);
        }
    }
    unguarded
}

/// Returns whether exactly one transition leaves a complete state, at the dispatch; or whether no transition at
/// the dispatch leaves another state, and a step can always proceed from there.
pub fn has_ways(parts: &BehaviourParts, state: usize) -> bool
    ensures { result ≡ has_ways parts.now state }
{
    let transitions = parts.transitions.as_slice();
    let count = dispatch_count(transitions, state);
    if completes(parts.states.get(state)) {
        count == 1
    } else {
        count == 0 && ends_unguarded(transitions, state)
    }
}

// The mark of a state. An undeclared state is marked.
fn is_marked(marks: &[bool], state: u32) -> bool
    ensures { result ≡ marked marks.now state }
{
    match marks.get(state as usize) {
        None => true,
        Some(mark) => *mark,
    }
}

// Whether all transitions that leave a state go to marked states.
fn leads_to_marked(transitions: &[Transition], state: usize, marks: &[bool]) -> bool
    ensures { result ≡ list_all (λ e. marked marks.now e.target) (filter (λ e. nat_eq e.source state) transitions.now) }
{
    for transition in transitions {
        if transition.source as usize == state && !is_marked(marks, transition.target) {
            return false;
        }
    }
    true
}

// For each state, whether it is complete.
#[tactic(auto, using(crate::proofs::UpwardNumbers::map_upwards_more))]
fn complete_states(alloc: Global, parts: &BehaviourParts) -> Result<Vec<bool>, NoMemory>
    ensures { IfOk result (λ marks. marks.items ≡ map (is_complete parts.now) (upwards 0 (length parts.now.states))) }
{
    let mut marks = Vec::new(alloc);
    for state in 0..parts.states.len() {
        marks.push(completes(parts.states.get(state)))?;
    }
    Ok(marks)
}

// Whether a state is complete, or each outgoing transition leads to a marked state.
fn settles_next(parts: &BehaviourParts, marks: &[bool], state: usize) -> bool
    ensures { result ≡ settles_next parts.now marks.now state }
{
    completes(parts.states.get(state))
        || leads_to_marked(parts.transitions.as_slice(), state, marks)
}

// For each state, whether it is complete or each outgoing transition leads to a marked state.
#[tactic(auto, using(crate::proofs::UpwardNumbers::map_upwards_more))]
fn settled_next(
    alloc: Global,
    parts: &BehaviourParts,
    marks: &[bool],
) -> Result<Vec<bool>, NoMemory>
    ensures { IfOk result (λ next. next.items
        ≡ map (settles_next parts.now marks.now) (upwards 0 (length parts.now.states))) }
{
    let mut next = Vec::new(alloc);
    for state in 0..parts.states.len() {
        next.push(settles_next(parts, marks, state))?;
    }
    Ok(next)
}

/// Returns, for each state, whether every path from it reaches a complete state by at most as many transitions
/// as there are states. Errors: out of memory.
#[tactic(auto, using(crate::proofs::CycleSearchMarks::settles_more))]
pub fn settled_states(alloc: Global, parts: &BehaviourParts) -> Result<Vec<bool>, NoMemory>
    ensures { IfOk result (λ marks. marks.items
        ≡ map (settles (length parts.now.states) parts.now) (upwards 0 (length parts.now.states))) }
{
    let mut marks = complete_states(alloc, parts)?;
    for _round in 0..parts.states.len() {
        marks = settled_next(alloc, parts, &marks)?;
    }
    Ok(marks)
}

/// Returns whether all states are marked.
pub fn are_marked(marks: &[bool]) -> bool
    ensures { result ≡ list_all (λ mark. mark) marks.now }
{
    marks.iter().all(|mark| *mark)
}
