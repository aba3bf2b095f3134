//! Whether two annexes have the same meaning.
ghost use Rattle.std.specs.Prelude.{◌≡◌, ◌↔◌, IsTrue, map, option_map};

use super::actions::same_block;
use super::expressions::same_expression;
use super::lists_and_options::{same_items, same_option};
use super::same_meaning::Same;
use super::values::same_associations;
use crate::actions::Block;
use crate::annex::{
    Annex, AnnexContent, AnnexTree, Guard, StateDeclaration, Transition, VariableDeclaration,
};

impl Same for Block {
    ghost use Rattle.aadl_tree.specs.Actions.{Block};
    ghost use Rattle.aadl_tree.specs.proof.ActionViews.{block_view};
    ghost use Rattle.aadl_tree.specs.proof.PlaceMaps.{no_place};

    ghost Meaning = { Block (Unit {0}) };

    ghost meaning = { block_view no_place };

    fn same(&self, other: &Block) -> bool {
        same_block(self, other)
    }
}

impl Same for VariableDeclaration {
    ghost use Rattle.aadl_tree.specs.Annexes.{VariableDeclaration};
    ghost use Rattle.aadl_tree.specs.proof.AnnexViews.{variable_view};
    ghost use Rattle.aadl_tree.specs.proof.PlaceMaps.{no_place};

    ghost Meaning = { VariableDeclaration (Unit {0}) };

    ghost meaning = { variable_view no_place };

    fn same(&self, other: &VariableDeclaration) -> bool {
        self.names.same(&other.names)
            && self.data_type.same(&other.data_type)
            && same_associations(&self.properties, &other.properties)
    }
}

impl Same for StateDeclaration {
    ghost use Rattle.aadl_tree.specs.Annexes.{StateDeclaration};
    ghost use Rattle.aadl_tree.specs.proof.AnnexViews.{state_view};
    ghost use Rattle.aadl_tree.specs.proof.PlaceMaps.{no_place};

    ghost Meaning = { StateDeclaration (Unit {0}) };

    ghost meaning = { state_view no_place };

    fn same(&self, other: &StateDeclaration) -> bool {
        self.names.same(&other.names)
            && self.initial == other.initial
            && self.complete == other.complete
    }
}

impl Same for Guard {
    ghost use Rattle.aadl_tree.specs.Annexes.{Guard};
    ghost use Rattle.aadl_tree.specs.proof.AnnexViews.{guard_view};
    ghost use Rattle.aadl_tree.specs.proof.PlaceMaps.{no_place};

    ghost Meaning = { Guard (Unit {0}) };

    ghost meaning = { guard_view no_place };

    fn same(&self, other: &Guard) -> bool {
        match (self, other) {
            (Guard::Dispatch, Guard::Dispatch) => true,
            (Guard::Otherwise, Guard::Otherwise) => true,
            (Guard::When(left), Guard::When(right)) => same_expression(left, right),
            _ => false,
        }
    }
}

impl Same for Transition {
    ghost use Rattle.aadl_tree.specs.Annexes.{Transition};
    ghost use Rattle.aadl_tree.specs.proof.AnnexViews.{transition_view};
    ghost use Rattle.aadl_tree.specs.proof.PlaceMaps.{no_place};

    ghost Meaning = { Transition (Unit {0}) };

    ghost meaning = { transition_view no_place };

    fn same(&self, other: &Transition) -> bool {
        same_option(&self.label, &other.label)
            && self.source.same(&other.source)
            && same_option(&self.guard, &other.guard)
            && self.target.same(&other.target)
            && same_option(&self.effect, &other.effect)
    }
}

// Whether two optional lists of declarations have the same meaning.
fn same_declared<T: Same>(left: &Option<Vec<T>>, right: &Option<Vec<T>>) -> bool
    ensures { IsTrue result
        ↔ (option_map (λ xs. map T.meaning xs.items) left.now
        ≡ option_map (λ xs. map T.meaning xs.items) right.now) }
{
    match (left, right) {
        (None, None) => true,
        (Some(left), Some(right)) => same_items(left.as_slice(), right.as_slice()),
        _ => false,
    }
}

impl Same for AnnexTree {
    ghost use Rattle.aadl_tree.specs.Annexes.{AnnexTree};
    ghost use Rattle.aadl_tree.specs.proof.AnnexViews.{annex_tree_view};
    ghost use Rattle.aadl_tree.specs.proof.PlaceMaps.{no_place};

    ghost Meaning = { AnnexTree (Unit {0}) };

    ghost meaning = { annex_tree_view no_place };

    fn same(&self, other: &AnnexTree) -> bool {
        same_declared(&self.variables, &other.variables)
            && same_declared(&self.states, &other.states)
            && same_declared(&self.transitions, &other.transitions)
    }
}

impl Same for AnnexContent {
    ghost use Rattle.aadl_tree.specs.Annexes.{AnnexContent};
    ghost use Rattle.aadl_tree.specs.proof.AnnexViews.{content_view};
    ghost use Rattle.aadl_tree.specs.proof.PlaceMaps.{no_place};

    ghost Meaning = { AnnexContent (Unit {0}) };

    ghost meaning = { content_view no_place };

    fn same(&self, other: &AnnexContent) -> bool {
        match (self, other) {
            (AnnexContent::Unread(left), AnnexContent::Unread(right)) => {
                left.as_slice() == right.as_slice()
            }
            (AnnexContent::Behaviour(left), AnnexContent::Behaviour(right)) => left.same(right),
            _ => false,
        }
    }
}

impl Same for Annex {
    ghost use Rattle.aadl_tree.specs.Annexes.{Annex};
    ghost use Rattle.aadl_tree.specs.proof.AnnexViews.{annex_view};
    ghost use Rattle.aadl_tree.specs.proof.PlaceMaps.{no_place};

    ghost Meaning = { Annex (Unit {0}) };

    ghost meaning = { annex_view no_place };

    fn same(&self, other: &Annex) -> bool {
        self.language.same(&other.language) && self.content.same(&other.content)
    }
}
