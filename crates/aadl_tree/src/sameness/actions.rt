//! Whether two actions have the same meaning.
ghost use Rattle.std.specs.Prelude.{◌≡◌, ◌↔◌, IsTrue, option_map};
ghost use Rattle.aadl_tree.specs.proof.ActionViews.{action_view, actions_view, block_view, choice_view, loop_view};
ghost use Rattle.aadl_tree.specs.proof.ActionViews.{mores_view, elsifs_view};
ghost use Rattle.aadl_tree.specs.proof.PlaceMaps.{no_place};

use super::expressions::same_expression;
use super::same_meaning::Same;
use crate::actions::{Action, Actions, Block, Choice, Elsif, Loop};

#[cycle(same_action)]
fn same_action(left: &Action, right: &Action) -> bool
    ensures { IsTrue result ↔ (action_view no_place left.now ≡ action_view no_place right.now) }
{
    match (left, right) {
        (
            Action::Assign { target, value },
            Action::Assign {
                target: other_target,
                value: other_value,
            },
        ) => target.same(other_target) && same_expression(value, other_value),
        (
            Action::Send { port, value },
            Action::Send {
                port: other_port,
                value: other_value,
            },
        ) => port.same(other_port) && same_expression(value, other_value),
        (Action::If(left), Action::If(right)) => same_choice(left, right),
        (Action::For(left), Action::For(right)) => same_loop(left, right),
        _ => false,
    }
}

/// Returns whether two lists of actions have the same meaning. The recursion is as deep as the trees.
#[cycle(same_action)]
pub fn same_actions(left: &Actions, right: &Actions) -> bool
    ensures { IsTrue result ↔ (actions_view no_place left.now ≡ actions_view no_place right.now) }
{
    same_action(&left.first, &right.first) && same_mores(&left.rest, &right.rest)
}

#[cycle(same_action)]
fn same_mores(left: &[Action], right: &[Action]) -> bool
    ensures { IsTrue result ↔ (mores_view no_place left.now ≡ mores_view no_place right.now) }
{
    if left.len() != right.len() {
        return false;
    }
    for at in 0..left.len() {
        if !same_action(&left[at], &right[at]) {
            return false;
        }
    }
    true
}

#[cycle(same_action)]
fn same_optional(left: &Option<Box<Actions>>, right: &Option<Box<Actions>>) -> bool
    ensures { IsTrue result
        ↔ (option_map (λ b. actions_view no_place b.value) left.now
        ≡ option_map (λ b. actions_view no_place b.value) right.now) }
{
    match (left, right) {
        (None, None) => true,
        (Some(left), Some(right)) => same_actions(left, right),
        _ => false,
    }
}

/// Returns whether two blocks have the same meaning. The recursion is as deep as the trees.
#[cycle(same_action)]
pub fn same_block(left: &Block, right: &Block) -> bool
    ensures { IsTrue result ↔ (block_view no_place left.now ≡ block_view no_place right.now) }
{
    same_optional(&left.actions, &right.actions)
}

#[cycle(same_action)]
fn same_choice(left: &Choice, right: &Choice) -> bool
    ensures { IsTrue result ↔ (choice_view no_place left.now ≡ choice_view no_place right.now) }
{
    same_expression(&left.test, &right.test)
        && same_actions(&left.actions, &right.actions)
        && same_elsifs(&left.elsifs, &right.elsifs)
        && same_optional(&left.otherwise, &right.otherwise)
}

#[cycle(same_action)]
fn same_elsifs(left: &[Elsif], right: &[Elsif]) -> bool
    ensures { IsTrue result ↔ (elsifs_view no_place left.now ≡ elsifs_view no_place right.now) }
{
    if left.len() != right.len() {
        return false;
    }
    for at in 0..left.len() {
        if !same_expression(&left[at].test, &right[at].test)
            || !same_actions(&left[at].actions, &right[at].actions)
        {
            return false;
        }
    }
    true
}

#[cycle(same_action)]
fn same_loop(left: &Loop, right: &Loop) -> bool
    ensures { IsTrue result ↔ (loop_view no_place left.now ≡ loop_view no_place right.now) }
{
    left.variable.same(&right.variable)
        && left.data_type.same(&right.data_type)
        && left.low == right.low
        && left.high == right.high
        && same_block(&left.body, &right.body)
}
