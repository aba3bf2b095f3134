//! The uses of names in transitions.
#![tactic(auto, using(aadl_names::proofs::FirstFaultSoFar::found_append))]

ghost use Rattle.std.specs.Prelude.{◌≡◌, OnOk, map, flat_map, option_map};
ghost use Rattle.aadl_tree.specs.proof.NameViews.{identifier_view};
ghost use Rattle.aadl_tree.specs.proof.ActionViews.{block_view};
ghost use Rattle.aadl_tree.specs.proof.AnnexViews.{guard_view, transition_view};
ghost use Rattle.aadl_tree.specs.proof.PlaceMaps.{kept_place};
ghost use Rattle.aadl_names.specs.proof.FirstFaultSoFar.{found};
ghost use Rattle.aadl_names.specs.PackageNameFaults as spec;
ghost use Rattle.name_faults.specs.proof.BehaviourScopes.{known_by, is_state_by};

use crate::actions_and_expressions::{check_block, check_expression};
use crate::behaviour_scope::BehaviourScope;
use aadl_names::{FaultFinder, NameTable};
use aadl_tree::{Block, Guard, Identifier, Transition};
use std::alloc::AllocError;

// Reports a name that is not the name of a state.
fn check_state(
    finder: &mut FaultFinder,
    states: &NameTable<()>,
    name: &Identifier,
) -> Result<(), AllocError>
    ensures { OnOk result (finder.new ≡ found finder.old
        (spec.state_uses (is_state_by states.now) (identifier_view kept_place name.now))) }
{
    let word = name.spelling.as_str();
    match states.value(finder.alloc(), word)? {
        Some(_) => Ok(()),
        None => finder.unknown(word, name.at),
    }
}

// Reports wrong uses of names in a guard.
fn check_guard(
    finder: &mut FaultFinder,
    scope: &BehaviourScope<'_>,
    guard: &Option<Guard>,
) -> Result<(), AllocError>
    ensures { OnOk result (finder.new ≡ found finder.old
        (spec.guard_uses (known_by scope.now) (option_map (guard_view kept_place) guard.now))) }
{
    match guard {
        Some(Guard::When(expression)) => check_expression(finder, scope, expression),
        Some(Guard::Dispatch) => Ok(()),
        Some(Guard::Otherwise) => Ok(()),
        None => Ok(()),
    }
}

// Reports wrong uses of names in the actions of a transition.
fn check_effect(
    finder: &mut FaultFinder,
    scope: &BehaviourScope<'_>,
    effect: &Option<Block>,
) -> Result<(), AllocError>
    ensures { OnOk result (finder.new ≡ found finder.old
        (spec.effect_uses (known_by scope.now) (option_map (block_view kept_place) effect.now))) }
{
    match effect {
        Some(block) => check_block(finder, scope, block),
        None => Ok(()),
    }
}

// Reports wrong uses of names in a transition.
fn check_transition(
    finder: &mut FaultFinder,
    states: &NameTable<()>,
    scope: &BehaviourScope<'_>,
    x: &Transition,
) -> Result<(), AllocError>
    ensures { OnOk result (finder.new ≡ found finder.old
        (spec.transition_uses (is_state_by states.now) (known_by scope.now) (transition_view kept_place x.now))) }
{
    check_state(finder, states, &x.source)?;
    check_state(finder, states, &x.target)?;
    check_guard(finder, scope, &x.guard)?;
    check_effect(finder, scope, &x.effect)
}

/// Reports wrong uses of names in transitions. Errors: out of memory.
pub fn check_transitions(
    finder: &mut FaultFinder,
    states: &NameTable<()>,
    scope: &BehaviourScope<'_>,
    transitions: &[Transition],
) -> Result<(), AllocError>
    ensures { OnOk result (finder.new ≡ found finder.old
        (flat_map (spec.transition_uses (is_state_by states.now) (known_by scope.now))
        (map (transition_view kept_place) transitions.now))) }
{
    for transition in transitions {
        check_transition(finder, states, scope, transition)?;
    }
    Ok(())
}
