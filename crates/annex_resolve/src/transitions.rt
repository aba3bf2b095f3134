//! The transitions of an annex.
ghost use Rattle.std.specs.Prelude.{◌≡◌, ◌++◌, IfOk, OnOk, option_map, map, flat_map};
ghost use Rattle.pals_base.specs.proof.TreeViews.{trigger_of as trigger_tree};
ghost use Rattle.aadl_tree.specs.proof.PlaceMaps.{kept_place};
ghost use Rattle.aadl_tree.specs.proof.ActionViews.{block_view};
ghost use Rattle.aadl_tree.specs.proof.AnnexViews.{guard_view, transition_view};
ghost use Rattle.annex_resolve.specs.BehavioursAndFindings.{trigger_of, effect_of, edge_of, guard_types};
ghost use Rattle.annex_resolve.specs.BehavioursAndFindings.{effect_findings, transition_findings};
ghost use Rattle.annex_resolve.specs.proof.ResolutionResults.{ResolvesActions};

use crate::actions::resolve_block;
use crate::expressions::resolve_whole;
use crate::scope::Scope;
use crate::states::{StateAt, state_number};
use crate::violation::Violation;
use aadl_tree::{Block, Guard};
use pals_base::{Act, Guard as Trigger, ItemList, Kind, NoMemory, Transition};
use std::alloc::Global;

// Resolves a guard, which is a Boolean.
fn resolve_guard(
    alloc: Global,
    scope: &Scope,
    guard: &Option<Guard>,
    found: &mut ItemList<Violation>,
) -> Result<Trigger, NoMemory>
    ensures tree { IfOk result (λ trigger. trigger_tree trigger
        ≡ trigger_of scope.now (option_map (guard_view kept_place) guard.now)) }
    ensures found { OnOk result (found.new
        ≡ found.old ++ guard_types scope.now (option_map (guard_view kept_place) guard.now)) }
{
    match guard {
        None => Ok(Trigger::Always),
        Some(Guard::Otherwise) => Ok(Trigger::Always),
        Some(Guard::Dispatch) => Ok(Trigger::Dispatch),
        Some(Guard::When(condition)) => {
            let condition = resolve_whole(alloc, scope, Some(Kind::Boolean), condition, found)?;
            Ok(Trigger::When(condition))
        }
    }
}

// Resolves the actions of a transition.
fn resolve_effect(
    alloc: Global,
    scope: &Scope,
    effect: &Option<Block>,
    found: &mut ItemList<Violation>,
) -> Result<Vec<Act>, NoMemory>
    ensures { IfOk result (λ acts. let x = option_map (block_view kept_place) effect.now in
        ResolvesActions (effect_of scope.now x) (effect_findings scope.now x) acts.items found.old found.new) }
{
    match effect {
        None => Ok(Vec::new(alloc)),
        Some(block) => resolve_block(alloc, scope, 1, block, found),
    }
}

// Resolves a transition, and appends its violations.
fn resolve_transition(
    alloc: Global,
    scope: &Scope,
    states: &[StateAt],
    transition: &aadl_tree::Transition,
    found: &mut ItemList<Violation>,
) -> Result<Transition, NoMemory>
    ensures edge { IfOk result (λ edge. edge ≡ edge_of scope.now states.now
        (transition_view kept_place transition.now)) }
    ensures found { OnOk result (found.new
        ≡ found.old ++ transition_findings scope.now (transition_view kept_place transition.now)) }
{
    let source = state_number(states, transition.source.spelling.as_str())?;
    let target = state_number(states, transition.target.spelling.as_str())?;
    let guard = resolve_guard(alloc, scope, &transition.guard, found)?;
    let acts = resolve_effect(alloc, scope, &transition.effect, found)?;
    Ok(Transition {
        source,
        target,
        guard,
        acts,
    })
}

/// Resolves transitions in order, and appends their violations. Errors: out of memory.
pub fn resolve_transitions(
    alloc: Global,
    scope: &Scope,
    states: &[StateAt],
    transitions: &[aadl_tree::Transition],
    found: &mut ItemList<Violation>,
) -> Result<ItemList<Transition>, NoMemory>
    ensures edges { IfOk result (λ edges. edges
        ≡ map (edge_of scope.now states.now) (map (transition_view kept_place) transitions.now)) }
    ensures found { OnOk result (found.new
        ≡ found.old ++ flat_map (transition_findings scope.now) (map (transition_view kept_place) transitions.now)) }
{
    let mut edges = ItemList::new(alloc);
    for transition in transitions {
        edges.push(resolve_transition(alloc, scope, states, transition, found)?)?;
    }
    Ok(edges)
}
