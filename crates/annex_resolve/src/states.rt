//! The states of an annex.
ghost use Rattle.std.specs.Prelude.{◌≡◌, [], ◌∷◌, ◌++◌, IfOk, OnOk, length, filter, map, position};
ghost use Rattle.aadl_tree.specs.Names.{same_name};
ghost use Rattle.std.specs.List.{list_all};
ghost use Rattle.aadl_tree.specs.proof.PlaceMaps.{kept_place};
ghost use Rattle.aadl_tree.specs.proof.NameViews.{identifier_view};
ghost use Rattle.aadl_tree.specs.proof.AnnexViews.{state_view, annex_tree_view};
ghost use Rattle.annex_resolve.specs.BehavioursAndFindings.{state_at, states_in, states_of, state_number};
ghost use Rattle.annex_resolve.specs.BehavioursAndFindings.{first_initial, has_initial, declared};

use aadl_tree::{AnnexTree, Identifier, StateDeclaration};
use pals_base::{ItemList, NoMemory, StateDecl, Text, TryClone};
use std::alloc::{AllocError, Global};

/// A state of an annex: its position, its name, and its attributes.
#[derive(Drop)]
pub struct StateAt {
    pub at: usize,
    pub name: Text,
    pub initial: bool,
    pub complete: bool,
}

fn add_state(
    alloc: Global,
    states: &mut ItemList<StateAt>,
    declaration: &StateDeclaration,
    name: &Identifier,
) -> Result<(), NoMemory>
    ensures { OnOk result (states.new
        ≡ states.old ++ state_at (state_view kept_place declaration.now) (identifier_view kept_place name.now) ∷ []) }
{
    states.push(StateAt {
        at: name.at,
        name: Text::from_str(alloc, name.spelling.as_str())?,
        initial: declaration.initial,
        complete: declaration.complete,
    })?;
    Ok(())
}

fn add_states(
    alloc: Global,
    states: &mut ItemList<StateAt>,
    declaration: &StateDeclaration,
) -> Result<(), NoMemory>
    ensures { OnOk result (states.new ≡ states.old ++ states_in (state_view kept_place declaration.now)) }
{
    add_state(alloc, states, declaration, &declaration.names.first)?;
    for name in &declaration.names.rest {
        add_state(alloc, states, declaration, name)?;
    }
    Ok(())
}

/// Returns the states of an annex, in order. Errors: out of memory.
pub fn states_of(alloc: Global, annex: &AnnexTree) -> Result<ItemList<StateAt>, NoMemory>
    ensures { IfOk result (λ states. states ≡ states_of (annex_tree_view kept_place annex.now)) }
{
    let mut states = ItemList::new(alloc);
    if let Some(declarations) = &annex.states {
        for declaration in declarations {
            add_states(alloc, &mut states, declaration)?;
        }
    }
    Ok(states)
}

// A number that fits 32 bits; larger numbers exceed the memory.
fn to_number(at: usize) -> Result<u32, NoMemory>
    ensures { IfOk result (λ number. number ≡ at) }
{
    if at > u32::MAX as usize {
        return Err(AllocError);
    }
    Ok(at as u32)
}

// The first state with a name.
fn named_state(states: &[StateAt], name: &str) -> Option<usize>
    ensures { result ≡ position (λ s. same_name s.name name.now) states.now }
{
    states
        .iter()
        .position(|state| state.name.as_str().eq_ignore_ascii_case(name))
}

// The first initial state.
fn initial_state(states: &[StateAt]) -> Option<usize>
    ensures { result ≡ position (λ s. s.initial) states.now }
{
    states.iter().position(|state| state.initial)
}

/// Returns the number of the state with a name, or the number of states if there is none. Errors: out of
/// memory.
pub fn state_number(states: &[StateAt], name: &str) -> Result<u32, NoMemory>
    ensures { IfOk result (λ number. number ≡ state_number states.now name.now) }
{
    match named_state(states, name) {
        None => to_number(states.len()),
        Some(number) => to_number(number),
    }
}

/// Returns the number of the initial state, or the number of states if there is none. Errors: out of memory.
pub fn first_initial(states: &[StateAt]) -> Result<u32, NoMemory>
    ensures { IfOk result (λ number. number ≡ first_initial states.now) }
{
    match initial_state(states) {
        None => to_number(states.len()),
        Some(number) => to_number(number),
    }
}

// The number of initial states.
fn initial_count(states: &[StateAt]) -> usize
    ensures { result ≡ length (filter (λ s. s.initial) states.now) }
{
    states.iter().filter(|state| state.initial).count()
}

fn initial_are_complete(states: &[StateAt]) -> bool
    ensures { result ≡ list_all (λ s. s.complete) (filter (λ s. s.initial) states.now) }
{
    states
        .iter()
        .filter(|state| state.initial)
        .all(|state| state.complete)
}

/// Returns whether exactly one state is initial, and it is complete.
pub fn has_initial(states: &[StateAt]) -> bool
    ensures { result ≡ has_initial states.now }
{
    initial_count(states) == 1 && initial_are_complete(states)
}

/// Returns the states of the behaviour. Errors: out of memory.
pub fn declared_states(alloc: Global, states: &[StateAt]) -> Result<ItemList<StateDecl>, NoMemory>
    ensures { IfOk result (λ all. all ≡ map declared states.now) }
{
    let mut all = ItemList::new(alloc);
    for state in states {
        all.push(StateDecl {
            name: state.name.try_clone(alloc)?,
            complete: state.complete,
        })?;
    }
    Ok(all)
}
