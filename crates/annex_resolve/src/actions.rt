//! Actions: their violations, and the trees in which names are numbers. The recursion is as deep as the
//! actions.
ghost use Rattle.std.specs.Prelude.{◌≡◌, ◌+◌, ◌≤◌, IfOk, option_copied, option_map};
ghost use Rattle.pals_base.specs.proof.TreeViews.{tree_of, action_of as act_tree};
ghost use Rattle.pals_base.specs.declared.limits.TheConstants.{NESTED_TURNS};
ghost use Rattle.aadl_tree.specs.proof.PlaceMaps.{kept_place};
ghost use Rattle.aadl_tree.specs.proof.ExpressionViews.{expression_view};
ghost use Rattle.aadl_tree.specs.proof.ActionViews.{action_view, actions_view, block_view, choice_view, loop_view};
ghost use Rattle.aadl_tree.specs.proof.ActionViews.{block_of as listed_block};
ghost use Rattle.annex_resolve.specs.NameMeanings.{may_set, may_send, nothing, given_to, kind_of};
ghost use Rattle.annex_resolve.specs.ExpressionTypesAndFindings.{whole_types};
ghost use Rattle.annex_resolve.specs.ResolvedTrees.{expression_of, action_of, actions_of, block_of};
ghost use Rattle.annex_resolve.specs.ActionFindings.{is_integer, action_findings, actions_findings, block_findings};
ghost use Rattle.annex_resolve.specs.ActionFindings.{branch_findings};
ghost use Rattle.annex_resolve.specs.proof.ResolutionResults.{ResolvesAction, ResolvesActions, ResolvesBranch};

use crate::expressions::{kind_of, resolve_whole};
use crate::loop_turns::{count_turns, is_too_long, signed, turns_with_outer};
use crate::scope::{DeclaredName, Meaning, Scope};
use crate::type_names::kind_named;
use crate::violation::{BAD_TYPE, LOOP_TOO_LONG, Violation, add_if};
use aadl_tree::{Action, Actions, Block, Choice, Expression, Loop, push_compact};
use pals_base::{Act, Branch, Expr, ItemList, Kind, NoMemory};
use std::alloc::Global;

// Whether the name can be assigned: a variable, or an out port.
fn may_set(entry: Option<&DeclaredName>) -> bool
    ensures { result ≡ may_set (option_copied entry.entry) }
{
    match entry {
        None => false,
        Some(entry) => matches!(entry.meaning, Meaning::OutPort(_) | Meaning::Variable(_)),
    }
}

fn may_send(entry: Option<&DeclaredName>) -> bool
    ensures { result ≡ may_send (option_copied entry.entry) }
{
    match entry {
        None => false,
        Some(entry) => matches!(entry.meaning, Meaning::OutPort(_)),
    }
}

// The action that gives a value to a name; it has no effect if the name cannot take one.
fn given_to(alloc: Global, value: Expr, entry: Option<&DeclaredName>) -> Act
    ensures { act_tree result ≡ given_to (tree_of value) (option_copied entry.entry) }
{
    match entry {
        None => nothing(alloc),
        Some(entry) => match entry.meaning {
            Meaning::OutPort(port) => Act::Emit { port, value },
            Meaning::Variable(variable) => Act::Assign { variable, value },
            Meaning::InPort(_) | Meaning::LoopVariable(_) => nothing(alloc),
        },
    }
}

// An action without effect.
fn nothing(alloc: Global) -> Act
    ensures { act_tree result ≡ nothing }
{
    Act::If {
        branches: Vec::new(alloc),
        otherwise: Vec::new(alloc),
    }
}

// Resolves a value for a name.
fn give(
    alloc: Global,
    scope: &Scope,
    entry: Option<&DeclaredName>,
    value: &Expression,
    found: &mut ItemList<Violation>,
) -> Result<Act, NoMemory>
    ensures { IfOk result (λ act. let x = expression_view kept_place value.now in let e = option_copied entry.entry in
        ResolvesAction (given_to (expression_of scope.now x) e) (whole_types scope.now (kind_of e) x) act found.old
        found.new) }
{
    let value = resolve_whole(alloc, scope, kind_of(entry), value, found)?;
    Ok(given_to(alloc, value, entry))
}

// Whether the type of a loop variable is Integer.
fn is_integer(kind: Option<Kind>) -> bool
    ensures { result ≡ is_integer kind }
{
    matches!(kind, Some(Kind::Integer))
}

/// Resolves a block, within loops with `around` iterations, and appends its violations. Errors: out of memory.
#[cycle(action)]
pub fn resolve_block(
    alloc: Global,
    scope: &Scope,
    around: u64,
    block: &Block,
    found: &mut ItemList<Violation>,
) -> Result<Vec<Act>, NoMemory>
    requires { around ≤ NESTED_TURNS + 1 }
    ensures { IfOk result (λ acts. let x = block_view kept_place block.now in
        ResolvesActions (block_of scope.now x) (block_findings scope.now around x) acts.items found.old found.new) }
{
    resolve_some(alloc, scope, around, &block.actions, found)
}

// Resolves optional actions, within loops with `around` iterations, and appends their violations.
#[cycle(action)]
fn resolve_some(
    alloc: Global,
    scope: &Scope,
    around: u64,
    actions: &Option<Box<Actions>>,
    found: &mut ItemList<Violation>,
) -> Result<Vec<Act>, NoMemory>
    requires { around ≤ NESTED_TURNS + 1 }
    ensures { IfOk result (λ acts. let x = listed_block (option_map (λ b. actions_view kept_place b.value) actions.now)
        in
        ResolvesActions (block_of scope.now x) (block_findings scope.now around x) acts.items found.old found.new) }
{
    match actions {
        None => Ok(Vec::new(alloc)),
        Some(actions) => resolve_actions(alloc, scope, around, actions, found),
    }
}

#[cycle(action)]
fn resolve_actions(
    alloc: Global,
    scope: &Scope,
    around: u64,
    actions: &Actions,
    found: &mut ItemList<Violation>,
) -> Result<Vec<Act>, NoMemory>
    requires { around ≤ NESTED_TURNS + 1 }
    ensures { IfOk result (λ acts. let x = actions_view kept_place actions.now in
        ResolvesActions (actions_of scope.now x) (actions_findings scope.now around x) acts.items found.old found.new) }
{
    let mut acts = Vec::new(alloc);
    let first = resolve_action(alloc, scope, around, &actions.first, found)?;
    push_compact(&mut acts, first)?;
    for action in &actions.rest {
        let act = resolve_action(alloc, scope, around, action, found)?;
        push_compact(&mut acts, act)?;
    }
    Ok(acts)
}

#[cycle(action)]
fn resolve_action(
    alloc: Global,
    scope: &Scope,
    around: u64,
    action: &Action,
    found: &mut ItemList<Violation>,
) -> Result<Act, NoMemory>
    requires { around ≤ NESTED_TURNS + 1 }
    ensures { IfOk result (λ act. let x = action_view kept_place action.now in
        ResolvesAction (action_of scope.now x) (action_findings scope.now around x) act found.old found.new) }
{
    match action {
        Action::Assign { target, value } => {
            let entry = scope.find(target.spelling.as_str());
            add_if(alloc, found, !may_set(entry), target.at, BAD_TYPE)?;
            give(alloc, scope, entry, value, found)
        }
        Action::Send { port, value } => {
            let entry = scope.find(port.spelling.as_str());
            add_if(alloc, found, !may_send(entry), port.at, BAD_TYPE)?;
            give(alloc, scope, entry, value, found)
        }
        Action::If(choice) => resolve_choice(alloc, scope, around, choice, found),
        Action::For(turns) => resolve_loop(alloc, scope, around, turns, found),
    }
}

#[cycle(action)]
fn resolve_choice(
    alloc: Global,
    scope: &Scope,
    around: u64,
    choice: &Choice,
    found: &mut ItemList<Violation>,
) -> Result<Act, NoMemory>
    requires { around ≤ NESTED_TURNS + 1 }
    ensures { IfOk result (λ act. let x = choice_view kept_place choice.now in
        ResolvesAction (action_of scope.now x) (action_findings scope.now around x) act found.old found.new) }
{
    let mut branches = Vec::new(alloc);
    let first = resolve_branch(alloc, scope, around, &choice.actions, &choice.test, found)?;
    push_compact(&mut branches, first)?;
    for elsif in &choice.elsifs {
        let branch = resolve_branch(alloc, scope, around, &elsif.actions, &elsif.test, found)?;
        push_compact(&mut branches, branch)?;
    }
    let otherwise = resolve_some(alloc, scope, around, &choice.otherwise, found)?;
    Ok(Act::If {
        branches,
        otherwise,
    })
}

// Resolves the actions under a true test.
#[cycle(action)]
fn resolve_branch(
    alloc: Global,
    scope: &Scope,
    around: u64,
    actions: &Actions,
    test: &Expression,
    found: &mut ItemList<Violation>,
) -> Result<Branch, NoMemory>
    requires { around ≤ NESTED_TURNS + 1 }
    ensures { IfOk result (λ branch. let e = expression_view kept_place test.now in let xs = actions_view kept_place
        actions.now in
        ResolvesBranch (expression_of scope.now e) (actions_of scope.now xs) (branch_findings scope.now around e xs)
        branch found.old found.new) }
{
    let guard = resolve_whole(alloc, scope, Some(Kind::Boolean), test, found)?;
    let acts = resolve_actions(alloc, scope, around, actions, found)?;
    Ok(Branch { guard, acts })
}

#[cycle(action)]
fn resolve_loop(
    alloc: Global,
    scope: &Scope,
    around: u64,
    turns: &Loop,
    found: &mut ItemList<Violation>,
) -> Result<Act, NoMemory>
    requires { around ≤ NESTED_TURNS + 1 }
    ensures { IfOk result (λ act. let x = loop_view kept_place turns.now in
        ResolvesAction (action_of scope.now x) (action_findings scope.now around x) act found.old found.new) }
{
    let low = signed(turns.low)?;
    let high = signed(turns.high)?;
    let count = count_turns(low, high);
    let kind = kind_named(&turns.data_type);
    add_if(alloc, found, !is_integer(kind), turns.at, BAD_TYPE)?;
    add_if(
        alloc,
        found,
        is_too_long(around, count),
        turns.at,
        LOOP_TOO_LONG,
    )?;
    let inner = scope.with_loop(alloc, &turns.variable)?;
    let body = resolve_block(
        alloc,
        &inner,
        turns_with_outer(around, count),
        &turns.body,
        found,
    )?;
    Ok(Act::For { low, high, body })
}
