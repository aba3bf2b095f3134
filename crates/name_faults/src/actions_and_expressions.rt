//! The uses of names in the actions and expressions of a behaviour.
#![tactic(auto, using(aadl_names::proofs::FirstFaultSoFar::found_append))]

ghost use Rattle.std.specs.Prelude.{◌≡◌, OnOk};
ghost use Rattle.aadl_tree.specs.proof.NameViews.{identifier_view};
ghost use Rattle.aadl_tree.specs.proof.ExpressionViews.{primary_view, factor_view, term_view, sum_view, relation_view};
ghost use Rattle.aadl_tree.specs.proof.ExpressionViews.{expression_view};
ghost use Rattle.aadl_tree.specs.proof.ActionViews.{action_view, actions_view, block_view, choice_view, loop_view};
ghost use Rattle.aadl_tree.specs.proof.PlaceMaps.{kept_place};
ghost use Rattle.aadl_names.specs.proof.FirstFaultSoFar.{found};
ghost use Rattle.aadl_names.specs.NameUseFaults as spec;
ghost use Rattle.name_faults.specs.proof.BehaviourScopes.{known_by};

use crate::behaviour_scope::BehaviourScope;
use aadl_names::{FaultFinder, Usage};
use aadl_tree::{
    Action, Actions, Block, Choice, Expression, Factor, Identifier, Loop, Primary, Relation, Sum,
    Term,
};
use std::alloc::AllocError;

fn check_use(
    finder: &mut FaultFinder,
    scope: &BehaviourScope<'_>,
    usage: Usage,
    name: &Identifier,
) -> Result<(), AllocError>
    ensures { OnOk result (finder.new ≡ found finder.old
        (spec.uses (known_by scope.now) usage (identifier_view kept_place name.now))) }
{
    match scope.role_of(name.spelling.as_str())? {
        Some(role) => {
            finder.wrong_if(!usage.allows(role), name.at);
            Ok(())
        }
        None => finder.unknown(name.spelling.as_str(), name.at),
    }
}

// Reports a loop variable whose name already denotes something.
fn check_again(
    finder: &mut FaultFinder,
    scope: &BehaviourScope<'_>,
    variable: &Identifier,
) -> Result<(), AllocError>
    ensures { OnOk result (finder.new ≡ found finder.old
        (spec.loop_again (known_by scope.now) (identifier_view kept_place variable.now))) }
{
    let name = variable.spelling.as_str();
    match scope.role_of(name)? {
        Some(_) => finder.twice(name, variable.at),
        None => Ok(()),
    }
}

#[cycle(uses)]
fn check_primary(
    finder: &mut FaultFinder,
    scope: &BehaviourScope<'_>,
    primary: &Primary,
) -> Result<(), AllocError>
    ensures { OnOk result (finder.new ≡ found finder.old
        (spec.primary_uses (known_by scope.now) (primary_view kept_place primary.now))) }
{
    match primary {
        Primary::Whole { .. } => Ok(()),
        Primary::Truth { .. } => Ok(()),
        Primary::Named { name, fresh } => {
            let usage = if *fresh { Usage::Fresh } else { Usage::Read };
            check_use(finder, scope, usage, name)
        }
        Primary::Group { at: _, inner } => check_expression(finder, scope, inner),
    }
}

#[cycle(uses)]
fn check_factor(
    finder: &mut FaultFinder,
    scope: &BehaviourScope<'_>,
    factor: &Factor,
) -> Result<(), AllocError>
    ensures { OnOk result (finder.new ≡ found finder.old
        (spec.factor_uses (known_by scope.now) (factor_view kept_place factor.now))) }
{
    match factor {
        Factor::Abs { at: _, operand } => check_primary(finder, scope, operand),
        Factor::Not { at: _, operand } => check_primary(finder, scope, operand),
        Factor::Plain(operand) => check_primary(finder, scope, operand),
    }
}

#[cycle(uses)]
fn check_term(
    finder: &mut FaultFinder,
    scope: &BehaviourScope<'_>,
    term: &Term,
) -> Result<(), AllocError>
    ensures { OnOk result (finder.new ≡ found finder.old
        (spec.term_uses (known_by scope.now) (term_view kept_place term.now))) }
{
    check_factor(finder, scope, &term.first)?;
    for operand in &term.rest {
        check_factor(finder, scope, &operand.1)?;
    }
    Ok(())
}

#[cycle(uses)]
fn check_sum(
    finder: &mut FaultFinder,
    scope: &BehaviourScope<'_>,
    sum: &Sum,
) -> Result<(), AllocError>
    ensures { OnOk result (finder.new ≡ found finder.old
        (spec.sum_uses (known_by scope.now) (sum_view kept_place sum.now))) }
{
    check_term(finder, scope, &sum.first)?;
    for operand in &sum.rest {
        check_term(finder, scope, &operand.1)?;
    }
    Ok(())
}

#[cycle(uses)]
fn check_relation(
    finder: &mut FaultFinder,
    scope: &BehaviourScope<'_>,
    relation: &Relation,
) -> Result<(), AllocError>
    ensures { OnOk result (finder.new ≡ found finder.old
        (spec.relation_uses (known_by scope.now) (relation_view kept_place relation.now))) }
{
    check_sum(finder, scope, &relation.left)?;
    match &relation.right {
        Some(right) => check_sum(finder, scope, &right.1),
        None => Ok(()),
    }
}

/// Reports wrong uses of names in an expression. Errors: out of memory.
#[cycle(uses)]
pub fn check_expression(
    finder: &mut FaultFinder,
    scope: &BehaviourScope<'_>,
    expression: &Expression,
) -> Result<(), AllocError>
    ensures { OnOk result (finder.new ≡ found finder.old
        (spec.expression_uses (known_by scope.now) (expression_view kept_place expression.now))) }
{
    check_relation(finder, scope, &expression.first)?;
    for operand in &expression.rest {
        check_relation(finder, scope, &operand.1)?;
    }
    Ok(())
}

#[cycle(actions)]
fn check_action(
    finder: &mut FaultFinder,
    scope: &BehaviourScope<'_>,
    action: &Action,
) -> Result<(), AllocError>
    ensures { OnOk result (finder.new ≡ found finder.old
        (spec.action_uses (known_by scope.now) (action_view kept_place action.now))) }
{
    match action {
        Action::Assign { target, value } => {
            check_use(finder, scope, Usage::Set, target)?;
            check_expression(finder, scope, value)
        }
        Action::Send { port, value } => {
            check_use(finder, scope, Usage::Send, port)?;
            check_expression(finder, scope, value)
        }
        Action::If(choice) => check_choice(finder, scope, choice),
        Action::For(turns) => check_loop(finder, scope, turns),
    }
}

#[cycle(actions)]
fn check_choice(
    finder: &mut FaultFinder,
    scope: &BehaviourScope<'_>,
    choice: &Choice,
) -> Result<(), AllocError>
    ensures { OnOk result (finder.new ≡ found finder.old
        (spec.action_uses (known_by scope.now) (choice_view kept_place choice.now))) }
{
    check_expression(finder, scope, &choice.test)?;
    check_actions(finder, scope, &choice.actions)?;
    for elsif in &choice.elsifs {
        check_expression(finder, scope, &elsif.test)?;
        check_actions(finder, scope, &elsif.actions)?;
    }
    match &choice.otherwise {
        Some(actions) => check_actions(finder, scope, actions),
        None => Ok(()),
    }
}

#[cycle(actions)]
fn check_loop(
    finder: &mut FaultFinder,
    scope: &BehaviourScope<'_>,
    turns: &Loop,
) -> Result<(), AllocError>
    ensures { OnOk result (finder.new ≡ found finder.old
        (spec.action_uses (known_by scope.now) (loop_view kept_place turns.now))) }
{
    check_again(finder, scope, &turns.variable)?;
    let inner = scope.with_loop(&turns.variable)?;
    check_block(finder, &inner, &turns.body)
}

#[cycle(actions)]
fn check_actions(
    finder: &mut FaultFinder,
    scope: &BehaviourScope<'_>,
    actions: &Actions,
) -> Result<(), AllocError>
    ensures { OnOk result (finder.new ≡ found finder.old
        (spec.actions_uses (known_by scope.now) (actions_view kept_place actions.now))) }
{
    check_action(finder, scope, &actions.first)?;
    for action in &actions.rest {
        check_action(finder, scope, action)?;
    }
    Ok(())
}

/// Reports wrong uses of names in actions. Errors: out of memory.
#[cycle(actions)]
pub fn check_block(
    finder: &mut FaultFinder,
    scope: &BehaviourScope<'_>,
    block: &Block,
) -> Result<(), AllocError>
    ensures { OnOk result (finder.new ≡ found finder.old
        (spec.block_uses (known_by scope.now) (block_view kept_place block.now))) }
{
    match &block.actions {
        Some(actions) => check_actions(finder, scope, actions),
        None => Ok(()),
    }
}
