//! The behaviour of a whole annex, and all its violations.
ghost use Rattle.std.specs.Prelude.{◌≡◌, ◌++◌, IfOk, OnOk, map};
ghost use Rattle.aadl_tree.specs.proof.PlaceMaps.{kept_place};
ghost use Rattle.aadl_tree.specs.proof.AnnexViews.{annex_tree_view, transition_view};
ghost use Rattle.annex_resolve.specs.BehavioursAndFindings.{transitions_of, parts_by, behaviour_of, annex_findings};

use crate::ports_and_variables::DeclaredValues;
use crate::scope::Scope;
use crate::state_rules::add_rules;
use crate::states::{StateAt, declared_states, first_initial, states_of};
use crate::transitions::resolve_transitions;
use crate::violation::Violation;
use aadl_tree::{AnnexTree, Transition};
use pals_base::{BehaviourParts, ItemList, NoMemory, Transition as Edge};
use std::alloc::Global;

// The transitions of an annex; an absent section has no transitions.
fn transitions_of(annex: &AnnexTree) -> &[Transition]
    ensures { map (transition_view kept_place) result.now ≡ transitions_of (annex_tree_view kept_place annex.now) }
{
    match &annex.transitions {
        None => &[],
        Some(transitions) => transitions.as_slice(),
    }
}

fn parts_by(
    alloc: Global,
    values: DeclaredValues,
    states: &[StateAt],
    transitions: ItemList<Edge>,
) -> Result<BehaviourParts, NoMemory>
    ensures { IfOk result (λ parts. parts ≡ parts_by values states.now transitions) }
{
    let states_declared = declared_states(alloc, states)?;
    let initial = first_initial(states)?;
    let DeclaredValues { ins, outs, vars } = values;
    Ok(BehaviourParts {
        ins,
        outs,
        vars,
        states: states_declared,
        initial,
        transitions,
    })
}

/// Resolves an annex that begins at a position, for the ports and variables of its scope, and appends its
/// violations. Errors: out of memory.
pub fn resolve_annex(
    alloc: Global,
    values: DeclaredValues,
    scope: &Scope,
    at: usize,
    annex: &AnnexTree,
    found: &mut ItemList<Violation>,
) -> Result<BehaviourParts, NoMemory>
    ensures parts { IfOk result (λ parts. parts
        ≡ behaviour_of values scope.now (annex_tree_view kept_place annex.now)) }
    ensures found { OnOk result (found.new
        ≡ found.old ++ annex_findings values scope.now at (annex_tree_view kept_place annex.now)) }
{
    let states = states_of(alloc, annex)?;
    let transitions = transitions_of(annex);
    let edges = resolve_transitions(alloc, scope, states.as_slice(), transitions, found)?;
    let parts = parts_by(alloc, values, states.as_slice(), edges)?;
    add_rules(alloc, at, &parts, states.as_slice(), transitions, found)?;
    Ok(parts)
}
