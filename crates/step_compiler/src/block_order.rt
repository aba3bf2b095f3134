//! The order of the blocks of states.
ghost use Rattle.std.specs.Prelude.{◌≡◌, IfOk, OnOk, false};
ghost use Rattle.step_compiler.specs.proof.BlockOrder.{is_placed, next_state, block_order, with_next, awaited_marks};
ghost use Rattle.step_compiler.specs.proof.BlockOrder.{states_outside};
ghost use Rattle.step_compiler.specs.LaidOutCode.{complete_states};

use crate::list_access::{item_at, mark};
use crate::transitions::is_complete;
use pals_base::{Behaviour, NoMemory, Transition};
use std::alloc::Global;

/// All states, the complete ones first, and then the others, each after every state that jumps to its
/// block. For each state it reads all transitions and each pair of states: with 64 states, each transition
/// at most 64 times.
#[tactic(auto, using(crate::proofs::BlockOrderTurns::next_turn))]
pub fn block_order(alloc: Global, behaviour: &Behaviour) -> Result<Vec<usize>, NoMemory>
    ensures { IfOk result (λ order. order.items ≡ block_order behaviour.now) }
{
    let mut order = complete_states(alloc, behaviour)?;
    for _round in 0..behaviour.states().len() {
        let next = next_state(alloc, behaviour, &order)?;
        push_next(&mut order, next)?;
    }
    Ok(order)
}

// Adds the next state, if there is one.
fn push_next(order: &mut Vec<usize>, next: Option<usize>) -> Result<(), NoMemory>
    ensures { OnOk result (order.new.items ≡ with_next order.old.items next) }
{
    match next {
        None => Ok(()),
        Some(state) => Ok(order.push(state)?),
    }
}

// The complete states.
fn complete_states(alloc: Global, behaviour: &Behaviour) -> Result<Vec<usize>, NoMemory>
    ensures { IfOk result (λ states. states.items ≡ complete_states behaviour.now) }
{
    let mut complete = Vec::new(alloc);
    for state in 0..behaviour.states().len() {
        if is_complete(behaviour.states(), state) {
            complete.push(state)?;
        }
    }
    Ok(complete)
}

// The lowest state whose block may come next, if there is one.
fn next_state(
    alloc: Global,
    behaviour: &Behaviour,
    order: &[usize],
) -> Result<Option<usize>, NoMemory>
    ensures { IfOk result (λ found. found ≡ next_state behaviour.now order.now) }
{
    let parts = behaviour.parts();
    let states = parts.states.len();
    let outside = outside(alloc, states, order)?;
    let awaited = awaited(alloc, parts.transitions.as_slice(), &outside)?;
    for state in 0..states {
        if item_at(&outside, state, false) && !item_at(&awaited, state, false) {
            return Ok(Some(state));
        }
    }
    Ok(None)
}

// For each state, whether its block is not placed.
#[tactic(auto, using(pals_base::proofs::UpwardNumbers::map_upwards_more))]
fn outside(alloc: Global, states: usize, order: &[usize]) -> Result<Vec<bool>, NoMemory>
    ensures { IfOk result (λ marks. marks.items ≡ states_outside order.now states) }
{
    let mut marks = Vec::new(alloc);
    for state in 0..states {
        marks.push(!is_placed(order, state))?;
    }
    Ok(marks)
}

// Whether the block of a state is placed.
fn is_placed(order: &[usize], state: usize) -> bool
    ensures { result ≡ is_placed order.now state }
{
    for placed in order {
        if *placed == state {
            return true;
        }
    }
    false
}

// For each state, whether a transition leads to it from one whose block is not placed.
fn awaited(
    alloc: Global,
    transitions: &[Transition],
    outside: &[bool],
) -> Result<Vec<bool>, NoMemory>
    ensures { IfOk result (λ marks. marks.items ≡ awaited_marks outside.now transitions.now) }
{
    let mut marks = vec![in alloc; false; outside.len()]?;
    for transition in transitions {
        if item_at(outside, transition.source as usize, false) {
            mark(&mut marks, transition.target as usize);
        }
    }
    Ok(marks)
}
