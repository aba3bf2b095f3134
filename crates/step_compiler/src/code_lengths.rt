//! The number of instructions of the parts of a behaviour, capped at u64's maximum. The recursion of
//! each function is as deep as its tree.
ghost use Rattle.std.specs.Prelude.{◌≡◌};
ghost use Rattle.pals_base.specs.proof.TreeViews.{tree_of, operands_along, action_of, actions_along, branches_along};
ghost use Rattle.pals_base.specs.proof.TreeViews.{trigger_of};
ghost use Rattle.step_code.specs.CappedWeights.{capped};
ghost use Rattle.step_code.specs.CodeLengths.{operand_length, length_of, length_rest, length_act, length_acts};
ghost use Rattle.step_code.specs.CodeLengths.{length_branches, length_trigger, length_edge, length_edges};

use pals_base::{Act, Branch, Expr, Guard, Op, Operand, Transition};

/// The instructions of an expression.
#[cycle(length_expr)]
pub fn expr_length(expr: &Expr) -> u64
    ensures { result ≡ capped (length_of (tree_of expr.now)) }
{
    match expr {
        Expr::Literal(_) => 1,
        Expr::Variable(_) => 1,
        Expr::Port(_) => 1,
        Expr::Fresh(_) => 1,
        Expr::Neg(inner) => expr_length(inner).saturating_add(1),
        Expr::Abs(inner) => expr_length(inner).saturating_add(1),
        Expr::Not(inner) => expr_length(inner).saturating_add(1),
        Expr::Chain { first, rest } => {
            let front = expr_length(first);
            front.saturating_add(rest_length(rest))
        }
    }
}

// Those of the later operands of a chain.
#[cycle(length_expr)]
fn rest_length(rest: &[Operand]) -> u64
    ensures { result ≡ capped (length_rest (operands_along rest.now)) }
{
    let mut length: u64 = 0;
    for operand in rest {
        let right = expr_length(&operand.right);
        length = length.saturating_add(operand_length(operand.op, right));
    }
    length
}

// Those of an operator with its right side.
fn operand_length(op: Op, right: u64) -> u64
    ensures { result ≡ capped (operand_length op right) }
{
    match op {
        Op::AndThen | Op::OrElse => right.saturating_add(3),
        _ => right.saturating_add(1),
    }
}

/// The instructions of actions.
#[cycle(length_act)]
pub fn acts_length(acts: &[Act]) -> u64
    ensures { result ≡ capped (length_acts (actions_along acts.now)) }
{
    let mut length: u64 = 0;
    for act in acts {
        length = length.saturating_add(act_length(act));
    }
    length
}

#[cycle(length_act)]
fn act_length(act: &Act) -> u64
    ensures { result ≡ capped (length_act (action_of act.now)) }
{
    match act {
        Act::Assign { value, .. } => expr_length(value).saturating_add(1),
        Act::Emit { value, .. } => expr_length(value).saturating_add(1),
        Act::If {
            branches,
            otherwise,
        } => {
            let front = branches_length(branches);
            front.saturating_add(acts_length(otherwise))
        }
        Act::For { body, .. } => acts_length(body).saturating_add(2),
    }
}

/// The instructions of the branches of an `if`.
#[cycle(length_act)]
pub fn branches_length(branches: &[Branch]) -> u64
    ensures { result ≡ capped (length_branches (branches_along branches.now)) }
{
    let mut length: u64 = 0;
    for branch in branches {
        let guard = expr_length(&branch.guard);
        let acts = acts_length(&branch.acts);
        length = length.saturating_add(guard.saturating_add(acts).saturating_add(2));
    }
    length
}

// The instructions of a guard.
fn guard_length(guard: &Guard) -> u64
    ensures { result ≡ capped (length_trigger (trigger_of guard.now)) }
{
    match guard {
        Guard::Dispatch => 0,
        Guard::Always => 0,
        Guard::When(condition) => expr_length(condition).saturating_add(1),
    }
}

/// The instructions of a transition.
pub fn transition_length(transition: &Transition) -> u64
    ensures { result ≡ capped (length_edge transition.now) }
{
    let guard = guard_length(&transition.guard);
    let acts = acts_length(&transition.acts);
    guard.saturating_add(acts).saturating_add(1)
}

/// The instructions of transitions.
pub fn transitions_length(transitions: &[Transition]) -> u64
    ensures { result ≡ capped (length_edges transitions.now) }
{
    let mut length: u64 = 0;
    for transition in transitions {
        length = length.saturating_add(transition_length(transition));
    }
    length
}
