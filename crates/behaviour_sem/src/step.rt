//! One step of a behaviour.
ghost use Rattle.std.specs.Prelude.{◌≡◌, IfOk, OnOk, None, length, map, replicate, slice_index_or};
ghost use Rattle.pals_base.specs.SingleStep.{fire, held_of, holding, is_present};
ghost use Rattle.behaviour_sem.specs.proof.PartialStepResults.{IsStepResult};
ghost use Rattle.behaviour_sem.specs.proof.PartialSteps.{reacted};
ghost use Rattle.behaviour_sem.specs.proof.GroupedTransitions.{sources_of};

use crate::early_end::EarlyEnd;
use crate::step_inputs::StepInputs;
use crate::transition_groups::TransitionGroups;
use crate::transitions::{StepState, react};
use pals_base::{Behaviour, Frame, ItemList, NoMemory, PortValue, TryClone};
use std::alloc::{AllocError, Global};
use std::mem::replace;

/// One step, in memory of its own: the frame after it, and the values of its out ports. See `fire_into`
/// for the meaning of a step. The only error is that memory runs out.
pub fn fire(
    alloc: Global,
    behaviour: &Behaviour,
    frame: &Frame,
    inputs: &[PortValue],
) -> Result<(Frame, ItemList<PortValue>), NoMemory>
    ensures { IfOk result (λ r. record { frame = r.0; outs = r.1 } ≡ fire behaviour.now frame.now inputs.now) }
{
    let groups = TransitionGroups::new(alloc, behaviour)?;
    let mut after = frame.try_clone(alloc)?;
    let mut outs = vec![in alloc; PortValue::Absent; behaviour.outs().len()]?;
    fire_into(
        alloc,
        behaviour,
        &groups,
        frame,
        inputs,
        &mut after,
        outs.as_mut_slice(),
    )?;
    Ok((after, ItemList::from_vec(outs)))
}

/// One step, from one frame into another of the same shape: stores each present input, and then
/// follows the dispatch transition of the frame's state and, from each passing state, its first
/// transition whose guard is true. The previous contents of `to` and `outs` are overwritten. A trap leaves
/// the state and the variables unchanged, halts the frame, and makes all outputs absent; a halted frame
/// stays. Only the number of a loop allocates, and only if the variables of `to` had no place for it in an
/// earlier step; if memory runs out, `to` keeps its shape, so that the call can be repeated.
pub fn fire_into(
    alloc: Global,
    behaviour: &Behaviour,
    groups: &TransitionGroups,
    from: &Frame,
    inputs: &[PortValue],
    to: &mut Frame,
    outs: &mut [PortValue],
) -> Result<(), NoMemory>
    requires groups { groups.now ≡ sources_of behaviour.now.transitions }
    requires vars { length to.old.vars ≡ length from.now.vars }
    requires held { length to.old.held ≡ length from.now.held }
    requires outs { length outs.old ≡ length behaviour.now.outs }
    ensures fired { OnOk result (record { frame = to.new; outs = outs.new } ≡ fire behaviour.now from.now inputs.now) }
    ensures vars { length to.new.vars ≡ length from.now.vars }
    ensures held { length to.new.held ≡ length from.now.held }
{
    silence(outs);
    to.copy_from(from);
    hold(&mut to.held, inputs);
    if from.halt.is_some() {
        return Ok(());
    }
    match react_in(alloc, behaviour, groups, to, inputs, outs) {
        Ok(()) => Ok(()),
        Err(EarlyEnd::Trapped(trap)) => {
            silence(outs);
            to.state = from.state;
            to.vars.copy_from_slice(from.vars.as_slice());
            to.halt = Some(trap);
            Ok(())
        }
        Err(EarlyEnd::NoMemory) => Err(AllocError),
    }
}

// Makes all outputs absent.
fn silence(outs: &mut [PortValue])
    ensures { outs.new ≡ replicate (length outs.old) PortValue.Absent }
{
    outs.fill(PortValue::Absent);
}

// Stores each present input, and keeps the held value of the others.
fn hold(held: &mut ItemList<i64>, inputs: &[PortValue])
    ensures after { held.new ≡ holding held.old inputs.now }
    ensures len { length held.new ≡ length held.old }
{
    for at in 0..held.len() {
        held.set(at, newest(held[at], inputs, at));
    }
}

// The value of an in port if it is present, else the held value.
fn newest(before: i64, inputs: &[PortValue], at: usize) -> i64
    ensures { result ≡ held_of before (slice_index_or inputs.now at PortValue.Absent) }
{
    if at < inputs.len() {
        if let PortValue::Present(value) = inputs[at] {
            return value;
        }
    }
    before
}

// The whole step of a frame that holds its inputs and is not halted. A stop leaves as many variables
// as there were, and no value to rely on in them, in the state and in the outputs.
fn react_in(
    alloc: Global,
    behaviour: &Behaviour,
    groups: &TransitionGroups,
    frame: &mut Frame,
    present: &[PortValue],
    outs: &mut [PortValue],
) -> Result<(), EarlyEnd>
    requires groups { groups.now ≡ sources_of behaviour.now.transitions }
    requires halt { frame.old.halt ≡ None }
    ensures reacts { IsStepResult result (record { frame = frame.new; outs = outs.new })
        (reacted behaviour.now frame.old.state (map is_present present.now)
        (record { frame = frame.old; outs = outs.old })) }
    ensures vars { length frame.new.vars ≡ length frame.old.vars }
    ensures held { frame.new.held ≡ frame.old.held }
{
    let mut place = StepState {
        state: frame.state,
        vars: replace(&mut frame.vars, ItemList::new(alloc)).into_vec(),
    };
    let reads = StepInputs {
        held: frame.held.as_slice(),
        present,
    };
    let ended = react(behaviour, groups, &mut place, outs, &reads);
    let StepState { state, vars } = place;
    frame.state = state;
    frame.vars = ItemList::from_vec(vars);
    ended
}
