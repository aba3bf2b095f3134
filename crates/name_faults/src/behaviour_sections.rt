//! The sections of a behaviour; an absent section is empty.
ghost use Rattle.std.specs.Prelude.{◌≡◌, map};
ghost use Rattle.aadl_tree.specs.Names.{listed_in};
ghost use Rattle.aadl_tree.specs.proof.AnnexViews.{annex_tree_view, variable_view, state_view, transition_view};
ghost use Rattle.aadl_tree.specs.proof.PlaceMaps.{kept_place};

use aadl_tree::{AnnexTree, StateDeclaration, Transition, VariableDeclaration};

/// Returns the declarations of variables.
pub fn variables_in(behaviour: &AnnexTree) -> &[VariableDeclaration]
    ensures { map (variable_view kept_place) result.now
        ≡ listed_in (annex_tree_view kept_place behaviour.now).variables }
{
    match &behaviour.variables {
        Some(variables) => variables.as_slice(),
        None => &[],
    }
}

/// Returns the declarations of states.
pub fn states_in(behaviour: &AnnexTree) -> &[StateDeclaration]
    ensures { map (state_view kept_place) result.now ≡ listed_in (annex_tree_view kept_place behaviour.now).states }
{
    match &behaviour.states {
        Some(states) => states.as_slice(),
        None => &[],
    }
}

/// Returns the transitions.
pub fn transitions_in(behaviour: &AnnexTree) -> &[Transition]
    ensures { map (transition_view kept_place) result.now
        ≡ listed_in (annex_tree_view kept_place behaviour.now).transitions }
{
    match &behaviour.transitions {
        Some(transitions) => transitions.as_slice(),
        None => &[],
    }
}
