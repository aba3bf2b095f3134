//! The values of expressions.
ghost use Rattle.std.specs.Prelude.{◌≡◌, pos, map, slice_index_or, false};
ghost use Rattle.pals_base.specs.ExpressionValues.{eval, eval_rest, applied, is_true, truth};
ghost use Rattle.pals_base.specs.SingleStep.{is_present};
ghost use Rattle.pals_base.specs.proof.TreeViews.{tree_of, operands_along};
ghost use Rattle.behaviour_sem.specs.proof.EvaluationFrames.{seen, fresh};

use crate::step_inputs::StepInputs;
use pals_base::{Expr, Op, Operand, PortValue, Trap, abs, add, modulo, mul, neg, quot, rem, sub};

/// The value of an expression over these variables and inputs, or the first trap that it meets.
#[cycle(eval)]
pub fn eval(expr: &Expr, vars: &[i64], inputs: &StepInputs) -> Result<i64, Trap>
    ensures { result ≡ eval (tree_of expr.now) (seen vars.now inputs.now) (fresh inputs.now) }
{
    match expr {
        Expr::Literal(number) => Ok(*number),
        Expr::Variable(variable) => Ok(number_at(vars, *variable)),
        Expr::Port(port) => Ok(number_at(inputs.held, *port)),
        Expr::Fresh(port) => Ok(number_of(is_fresh(inputs.present, *port))),
        Expr::Neg(inner) => neg(eval(inner, vars, inputs)?),
        Expr::Abs(inner) => abs(eval(inner, vars, inputs)?),
        Expr::Not(inner) => {
            let value = eval(inner, vars, inputs)?;
            Ok(number_of(!holds(value)))
        }
        Expr::Chain { first, rest } => {
            let left = eval(first, vars, inputs)?;
            eval_rest(rest, left, vars, inputs)
        }
    }
}

// The later operands of a chain, from the value of the operands to their left.
#[cycle(eval)]
fn eval_rest(rest: &[Operand], left: i64, vars: &[i64], inputs: &StepInputs) -> Result<i64, Trap>
    ensures { result ≡ eval_rest (operands_along rest.now) (seen vars.now inputs.now) (fresh inputs.now) left }
{
    let mut value = left;
    for operand in rest {
        value = match operand.op {
            Op::AndThen if !holds(value) => 0,
            Op::OrElse if holds(value) => 1,
            op => apply(op, value, eval(&operand.right, vars, inputs)?)?,
        };
    }
    Ok(value)
}

// An operator at the values of both sides.
fn apply(op: Op, left: i64, right: i64) -> Result<i64, Trap>
    ensures { result ≡ applied op left right }
{
    match op {
        Op::Add => add(left, right),
        Op::Sub => sub(left, right),
        Op::Mul => mul(left, right),
        Op::Quot => quot(left, right),
        Op::Mod => modulo(left, right),
        Op::Rem => rem(left, right),
        Op::Eq => Ok(number_of(left == right)),
        Op::Ne => Ok(number_of(left != right)),
        Op::Lt => Ok(number_of(left < right)),
        Op::Le => Ok(number_of(left <= right)),
        Op::Gt => Ok(number_of(left > right)),
        Op::Ge => Ok(number_of(left >= right)),
        Op::And => Ok(number_of(holds(left) && holds(right))),
        Op::Or => Ok(number_of(holds(left) || holds(right))),
        Op::Xor => Ok(number_of(holds(left) != holds(right))),
        Op::AndThen => Ok(if holds(left) { right } else { 0 }),
        Op::OrElse => Ok(if holds(left) { 1 } else { right }),
    }
}

/// Whether a number counts as true: each but 0 does.
pub fn holds(value: i64) -> bool
    ensures { result ≡ is_true value }
{
    value != 0
}

// The number of a truth value.
fn number_of(yes: bool) -> i64
    ensures { result ≡ truth yes }
{
    if yes { 1 } else { 0 }
}

// The number at a place, or 0 past the end.
fn number_at(numbers: &[i64], at: u32) -> i64
    ensures { result ≡ slice_index_or numbers.now at (pos 0) }
{
    let at = at as usize;
    if at < numbers.len() { numbers[at] } else { 0 }
}

// Whether an in port has a value in this step.
fn is_fresh(ports: &[PortValue], at: u32) -> bool
    ensures { result ≡ slice_index_or (map is_present ports.now) at false }
{
    let at = at as usize;
    at < ports.len() && matches!(ports[at], PortValue::Present(_))
}
