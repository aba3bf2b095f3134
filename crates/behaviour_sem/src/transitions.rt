//! Transitions: from a complete state to the next.
ghost use Rattle.std.specs.Prelude.{◌≡◌, length, slice_get, Some};
ghost use Rattle.pals_base.specs.SingleStep.{completes, opens, along, settled};
ghost use Rattle.pals_base.specs.proof.TreeViews.{trigger_of};
ghost use Rattle.behaviour_sem.specs.proof.EvaluationFrames.{seen, fresh};
ghost use Rattle.behaviour_sem.specs.proof.GroupedTransitions.{numbered, sources_of};
ghost use Rattle.behaviour_sem.specs.proof.TransitionMoves.{move, opens_at, dispatches, dispatch_among};
ghost use Rattle.behaviour_sem.specs.proof.PartialSteps.{Leads, reacted};

use crate::actions::run_all;
use crate::early_end::EarlyEnd;
use crate::expressions::{eval, holds};
use crate::step_inputs::StepInputs;
use crate::transition_groups::TransitionGroups;
use pals_base::{Behaviour, Guard, PortValue, StateDecl, Transition, Trap};

/// The state of a running step: the state of the behaviour that it reached, and the variables.
#[derive(Drop)]
pub struct StepState {
    pub state: u32,
    pub vars: Vec<i64>,
}

// Whether a guard lets a transition go, once the step is under way.
fn opens(guard: &Guard, vars: &[i64], inputs: &StepInputs) -> Result<bool, Trap>
    ensures { result ≡ opens (trigger_of guard.now) (seen vars.now inputs.now) (fresh inputs.now) }
{
    match guard {
        Guard::Dispatch => Ok(false),
        Guard::Always => Ok(true),
        Guard::When(condition) => {
            let value = eval(condition, vars, inputs)?;
            Ok(holds(value))
        }
    }
}

// Whether a step ends in a state. A number of no state is such an end.
fn is_complete(states: &[StateDecl], state: u32) -> bool
    ensures { result ≡ completes (slice_get states.now state) }
{
    match states.get(state as usize) {
        Some(declared) => declared.complete,
        None => true,
    }
}

// Goes along a transition.
fn follow(
    transition: &Transition,
    place: &mut StepState,
    outs: &mut [PortValue],
    inputs: &StepInputs,
) -> Result<(), EarlyEnd>
    ensures leads { Leads result (along (Some transition.now)) inputs.now (place.old, outs.old)
        (place.new, outs.new) }
    ensures len { length place.new.vars.items ≡ length place.old.vars.items }
{
    run_all(&transition.acts, &mut place.vars, outs, inputs)?;
    place.state = transition.target;
    Ok(())
}

// Returns whether the transition of a number is a dispatch transition.
fn is_dispatch(transitions: &[Transition], number: usize) -> bool
    ensures { result ≡ dispatches (slice_get transitions.now number) }
{
    match transitions.get(number) {
        Some(transition) => matches!(transition.guard, Guard::Dispatch),
        None => false,
    }
}

// Returns whether the guard of the transition of a number is true.
fn is_open(
    transitions: &[Transition],
    number: usize,
    vars: &[i64],
    inputs: &StepInputs,
) -> Result<bool, Trap>
    ensures { result ≡ opens_at (slice_get transitions.now number) (seen vars.now inputs.now) (fresh inputs.now) }
{
    match transitions.get(number) {
        Some(transition) => opens(&transition.guard, vars, inputs),
        None => Ok(false),
    }
}

// Follows the transition of a number, if there is one.
fn follow_number(
    transitions: &[Transition],
    number: usize,
    place: &mut StepState,
    outs: &mut [PortValue],
    inputs: &StepInputs,
) -> Result<(), EarlyEnd>
    ensures leads { Leads result (along (slice_get transitions.now number)) inputs.now (place.old, outs.old)
        (place.new, outs.new) }
    ensures len { length place.new.vars.items ≡ length place.old.vars.items }
{
    match transitions.get(number) {
        Some(transition) => follow(transition, place, outs, inputs),
        None => Ok(()),
    }
}

// Follows the dispatch transition among the transitions of these numbers, if there is one.
fn dispatch(
    transitions: &[Transition],
    numbers: &[usize],
    place: &mut StepState,
    outs: &mut [PortValue],
    inputs: &StepInputs,
) -> Result<(), EarlyEnd>
    ensures leads { Leads result (along (dispatch_among (numbered transitions.now numbers.now))) inputs.now
        (place.old, outs.old) (place.new, outs.new) }
    ensures len { length place.new.vars.items ≡ length place.old.vars.items }
{
    for at in 0..numbers.len() {
        let number = numbers[at];
        if is_dispatch(transitions, number) {
            return follow_number(transitions, number, place, outs, inputs);
        }
    }
    Ok(())
}

// Follows the first transition of these numbers whose guard is true, if there is one.
fn advance(
    transitions: &[Transition],
    numbers: &[usize],
    place: &mut StepState,
    outs: &mut [PortValue],
    inputs: &StepInputs,
) -> Result<(), EarlyEnd>
    ensures leads { Leads result (move (numbered transitions.now numbers.now)) inputs.now
        (place.old, outs.old) (place.new, outs.new) }
    ensures len { length place.new.vars.items ≡ length place.old.vars.items }
{
    for at in 0..numbers.len() {
        let number = numbers[at];
        if is_open(transitions, number, &place.vars, inputs)? {
            return follow_number(transitions, number, place, outs, inputs);
        }
    }
    Ok(())
}

// Follows transitions until a complete state, at most as many as there are states.
fn settle(
    behaviour: &Behaviour,
    groups: &TransitionGroups,
    place: &mut StepState,
    outs: &mut [PortValue],
    inputs: &StepInputs,
) -> Result<(), EarlyEnd>
    requires { groups.now ≡ sources_of behaviour.now.transitions }
    ensures leads { Leads result (settled (length behaviour.now.states) behaviour.now) inputs.now
        (place.old, outs.old) (place.new, outs.new) }
    ensures len { length place.new.vars.items ≡ length place.old.vars.items }
{
    for _ in 0..behaviour.states().len() {
        if is_complete(behaviour.states(), place.state) {
            return Ok(());
        }
        let numbers = groups.leaving(place.state);
        advance(behaviour.transitions(), numbers, place, outs, inputs)?;
    }
    Ok(())
}

/// Makes the whole step of a frame that is not halted: the dispatch transition of its state, and the
/// transitions from there to a complete state. An early end leaves as many variables as there were.
pub fn react(
    behaviour: &Behaviour,
    groups: &TransitionGroups,
    place: &mut StepState,
    outs: &mut [PortValue],
    inputs: &StepInputs,
) -> Result<(), EarlyEnd>
    requires { groups.now ≡ sources_of behaviour.now.transitions }
    ensures leads { Leads result (reacted behaviour.now place.old.state) inputs.now (place.old, outs.old)
        (place.new, outs.new) }
    ensures len { length place.new.vars.items ≡ length place.old.vars.items }
{
    let numbers = groups.leaving(place.state);
    dispatch(behaviour.transitions(), numbers, place, outs, inputs)?;
    settle(behaviour, groups, place, outs, inputs)
}
