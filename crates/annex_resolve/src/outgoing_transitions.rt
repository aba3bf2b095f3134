//! The transitions that leave a state: whether a step can block there, and whether the number of transitions at
//! the dispatch is right.
ghost use Rattle.std.specs.Prelude.{◌≡◌, IfOk, option_map, option_copied, filter, map, nat_eq};
ghost use Rattle.std.specs.List.{list_any};
ghost use Rattle.pals_base.specs.BehaviourRules.{dispatch_count};
ghost use Rattle.aadl_tree.specs.proof.PlaceMaps.{kept_place};
ghost use Rattle.aadl_tree.specs.proof.AnnexViews.{guard_view, transition_view};
ghost use Rattle.annex_resolve.specs.BehavioursAndFindings.{guard_case_of, departure_of, guard_cases_from};
ghost use Rattle.annex_resolve.specs.BehavioursAndFindings.{is_otherwise, is_guarded};
ghost use Rattle.annex_resolve.specs.BehavioursAndFindings.{is_open, lacks_otherwise, breaks_dispatch};

use crate::cycles::is_complete;
use crate::states::{StateAt, state_number};
use aadl_tree::Guard;
use pals_base::{BehaviourParts, Guard as Trigger, ItemList, NoMemory, Transition};
use std::alloc::Global;

/// The kind of guard of a transition.
#[derive(Clone, Copy)]
pub enum GuardCase {
    Dispatch,
    Otherwise,
    /// It has an empty guard.
    Always,
    /// It has a condition.
    Guarded,
}

/// A transition, by its source state and the kind of its guard.
#[derive(Clone, Copy)]
pub struct Departure {
    pub source: u32,
    pub way: GuardCase,
}

impl GuardCase {
    fn is_otherwise(self) -> bool
        ensures { result ≡ is_otherwise self }
    {
        matches!(self, GuardCase::Otherwise)
    }

    fn is_guarded(self) -> bool
        ensures { result ≡ is_guarded self }
    {
        matches!(self, GuardCase::Guarded)
    }
}

// The kind of a guard.
fn guard_case_of(guard: &Option<Guard>) -> GuardCase
    ensures { result ≡ guard_case_of (option_map (guard_view kept_place) guard.now) }
{
    match guard {
        None => GuardCase::Always,
        Some(Guard::Dispatch) => GuardCase::Dispatch,
        Some(Guard::Otherwise) => GuardCase::Otherwise,
        Some(Guard::When(_)) => GuardCase::Guarded,
    }
}

// The source and the kind of guard of a transition.
fn departure_of(
    states: &[StateAt],
    transition: &aadl_tree::Transition,
) -> Result<Departure, NoMemory>
    ensures { IfOk result (λ leg. leg ≡ departure_of states.now (transition_view kept_place transition.now)) }
{
    Ok(Departure {
        source: state_number(states, transition.source.spelling.as_str())?,
        way: guard_case_of(&transition.guard),
    })
}

/// Returns the sources and kinds of guards of transitions, in order. Errors: out of memory.
pub fn departures_of(
    alloc: Global,
    states: &[StateAt],
    transitions: &[aadl_tree::Transition],
) -> Result<ItemList<Departure>, NoMemory>
    ensures { IfOk result (λ legs. legs ≡ map (departure_of states.now)
        (map (transition_view kept_place) transitions.now)) }
{
    let mut legs = ItemList::new(alloc);
    for transition in transitions {
        legs.push(departure_of(states, transition)?)?;
    }
    Ok(legs)
}

// The kinds of guards of the transitions from a state, in order.
fn guard_cases_from(
    alloc: Global,
    legs: &[Departure],
    state: usize,
) -> Result<Vec<GuardCase>, NoMemory>
    ensures { IfOk result (λ ways. ways.items ≡ guard_cases_from state legs.now) }
{
    legs.iter()
        .filter(|leg| leg.source as usize == state)
        .map(|leg| leg.way)
        .collect(alloc)
}

// Whether the last guard of a list can be false, or there is none.
fn is_open(last: Option<&GuardCase>) -> bool
    ensures { result ≡ is_open (option_copied last.entry) }
{
    match last {
        None => true,
        Some(way) => way.is_guarded(),
    }
}

fn has_otherwise(ways: &[GuardCase]) -> bool
    ensures { result ≡ list_any is_otherwise ways.now }
{
    ways.iter().any(|way| way.is_otherwise())
}

// Whether a step can block at these guards, or an `otherwise` precedes another guard, which is then never
// taken.
fn lacks_way(ways: &[GuardCase]) -> bool
    ensures { result ≡ lacks_otherwise ways.now }
{
    let last = ways.len().saturating_sub(1);
    is_open(ways.get(last)) || has_otherwise(&ways[..last])
}

/// Returns whether a step can block in a state, or a transition after `otherwise` leaves it. Errors: out of
/// memory.
pub fn lacks_otherwise(alloc: Global, legs: &[Departure], state: usize) -> Result<bool, NoMemory>
    ensures { IfOk result (λ lacks. lacks ≡ lacks_otherwise (guard_cases_from state legs.now)) }
{
    let ways = guard_cases_from(alloc, legs, state)?;
    Ok(lacks_way(&ways))
}

// The number of transitions at the dispatch that leave a state.
fn dispatch_count(transitions: &[Transition], state: usize) -> usize
    ensures { result ≡ dispatch_count (filter (λ e. nat_eq e.source state) transitions.now) }
{
    let mut count = 0;
    for transition in transitions {
        if transition.source as usize == state && matches!(transition.guard, Trigger::Dispatch) {
            count += 1;
        }
    }
    count
}

/// Returns whether the number of transitions at the dispatch that leave a state is wrong: exactly one must
/// leave a complete state, and none another state.
pub fn breaks_dispatch(parts: &BehaviourParts, state: usize) -> bool
    ensures { result ≡ breaks_dispatch parts.now state }
{
    let wanted = if is_complete(parts, state) { 1 } else { 0 };
    dispatch_count(parts.transitions.as_slice(), state) != wanted
}
