//! The violations of the states of an annex.
ghost use Rattle.std.specs.Prelude.{◌≡◌, ◌++◌, OnOk, false, map, flat_map, slice_get};
ghost use Rattle.std.specs.Option.{unwrap_or};
ghost use Rattle.std.specs.List.{enumerate_from};
ghost use Rattle.aadl_tree.specs.proof.PlaceMaps.{kept_place};
ghost use Rattle.aadl_tree.specs.proof.AnnexViews.{transition_view};
ghost use Rattle.annex_resolve.specs.FindingRecords.{found_if};
ghost use Rattle.annex_resolve.specs.BehavioursAndFindings.{state_rules, rule_findings};

use crate::cycles::cyclic_states;
use crate::outgoing_transitions::{Departure, breaks_dispatch, departures_of, lacks_otherwise};
use crate::states::{StateAt, has_initial};
use crate::violation::{
    CYCLE_WITHOUT_COMPLETE, DISPATCH_COUNT, NO_INITIAL, NO_OTHERWISE, Violation, add_if,
};
use aadl_tree::Transition;
use pals_base::{BehaviourParts, ItemList, NoMemory, TryClone};
use std::alloc::Global;

// The states of a behaviour and the transitions between them: its parts, the sources and guards of its
// transitions, and for each state whether it is on a cycle of states that are not complete.
#[derive(Clone, Copy)]
struct StateGraph<'b> {
    parts: &'b BehaviourParts,
    legs: &'b ItemList<Departure>,
    cyclic: &'b ItemList<bool>,
}

// Appends a violation that names a state.
fn add_named(
    alloc: Global,
    found: &mut ItemList<Violation>,
    wrong: bool,
    state: &StateAt,
    number: u32,
) -> Result<(), NoMemory>
    ensures { OnOk result (found.new ≡ found.old ++ found_if wrong state.now.at number state.now.name) }
{
    if wrong {
        found.push(Violation {
            at: state.at,
            number,
            details: state.name.try_clone(alloc)?,
        })?;
    }
    Ok(())
}

// Appends the violations of a state.
fn add_state(
    alloc: Global,
    graph: &StateGraph<'_>,
    number: usize,
    state: &StateAt,
    found: &mut ItemList<Violation>,
) -> Result<(), NoMemory>
    ensures { OnOk result (found.new
        ≡ found.old ++ state_rules graph.now.parts.now graph.now.legs.now graph.now.cyclic.now (number, state.now)) }
{
    add_named(
        alloc,
        found,
        breaks_dispatch(graph.parts, number),
        state,
        DISPATCH_COUNT,
    )?;
    if state.complete {
        return Ok(());
    }
    let lacks = lacks_otherwise(alloc, graph.legs.as_slice(), number)?;
    add_named(alloc, found, lacks, state, NO_OTHERWISE)?;
    let returns = is_marked(graph.cyclic, number);
    add_named(alloc, found, returns, state, CYCLE_WITHOUT_COMPLETE)
}

// The mark of a state. An undeclared state is not marked.
fn is_marked(marks: &ItemList<bool>, state: usize) -> bool
    ensures { result ≡ unwrap_or (slice_get marks.now state) false }
{
    match marks.get(state) {
        None => false,
        Some(mark) => *mark,
    }
}

// Appends the violations of states.
fn add_states(
    alloc: Global,
    graph: &StateGraph<'_>,
    states: &[StateAt],
    found: &mut ItemList<Violation>,
) -> Result<(), NoMemory>
    ensures { OnOk result (found.new ≡ found.old
        ++ flat_map (state_rules graph.now.parts.now graph.now.legs.now graph.now.cyclic.now)
        (enumerate_from 0 states.now)) }
{
    for number in 0..states.len() {
        add_state(alloc, graph, number, &states[number], found)?;
    }
    Ok(())
}

/// Appends the violations of the states of an annex that begins at a position. Errors: out of memory.
pub fn add_rules(
    alloc: Global,
    at: usize,
    parts: &BehaviourParts,
    states: &[StateAt],
    transitions: &[Transition],
    found: &mut ItemList<Violation>,
) -> Result<(), NoMemory>
    ensures { OnOk result (found.new ≡ found.old
        ++ rule_findings at parts.now states.now (map (transition_view kept_place) transitions.now)) }
{
    add_if(alloc, found, !has_initial(states), at, NO_INITIAL)?;
    let legs = departures_of(alloc, states, transitions)?;
    let cyclic = cyclic_states(alloc, parts)?;
    let graph = StateGraph {
        parts,
        legs: &legs,
        cyclic: &cyclic,
    };
    add_states(alloc, &graph, states, found)
}
