//! The instructions of expressions.
ghost use Rattle.std.specs.Prelude.{◌≡◌, OnOk};
ghost use Rattle.pals_base.specs.proof.TreeViews.{tree_of, operands_along};
ghost use Rattle.step_compiler.specs.ExpressionAndActionInstructions.{operator, operand_of, code_of, code_rest};
ghost use Rattle.step_compiler.specs.proof.AppendedCode.{Adds};

use crate::checked_numbers::place_behind;
use crate::code_lengths::expr_length;
use pals_base::{Expr, ItemList, NoMemory, Op, Operand};
use step_code::Instr;

/// Adds the instructions that leave the value of an expression on the stack. It recurs as deep as
/// the tree is, and counts each part again at each level above it.
#[cycle(push_expr)]
pub fn push_expr(code: &mut ItemList<Instr>, expr: &Expr) -> Result<(), NoMemory>
    ensures { OnOk result (Adds code.old code.new (code_of (tree_of expr.now))) }
{
    match expr {
        Expr::Literal(number) => code.push(Instr::Push(*number)),
        Expr::Variable(variable) => code.push(Instr::Load(*variable)),
        Expr::Port(port) => code.push(Instr::Port(*port)),
        Expr::Fresh(port) => code.push(Instr::Fresh(*port)),
        Expr::Neg(inner) => {
            push_expr(code, inner)?;
            code.push(Instr::Neg)
        }
        Expr::Abs(inner) => {
            push_expr(code, inner)?;
            code.push(Instr::Abs)
        }
        Expr::Not(inner) => {
            push_expr(code, inner)?;
            code.push(Instr::Not)
        }
        Expr::Chain { first, rest } => {
            push_expr(code, first)?;
            push_rest(code, rest)
        }
    }
}

// Those of the later operands of a chain.
#[cycle(push_expr)]
fn push_rest(code: &mut ItemList<Instr>, rest: &[Operand]) -> Result<(), NoMemory>
    ensures { OnOk result (Adds code.old code.new (code_rest (operands_along rest.now))) }
{
    for operand in rest {
        push_operand(code, operand.op, &operand.right)?;
    }
    Ok(())
}

// Those of an operator and its right side: `and then` and `or else` jump past it.
#[cycle(push_expr)]
fn push_operand(code: &mut ItemList<Instr>, op: Op, right: &Expr) -> Result<(), NoMemory>
    ensures { OnOk result (Adds code.old code.new (operand_of op (tree_of right.now))) }
{
    match op {
        Op::AndThen => push_and_then(code, right),
        Op::OrElse => push_or_else(code, right),
        _ => {
            push_expr(code, right)?;
            code.push(operator(op))
        }
    }
}

// The value of the right side where the left one is true, else 0.
#[cycle(push_expr)]
fn push_and_then(code: &mut ItemList<Instr>, right: &Expr) -> Result<(), NoMemory>
    ensures { OnOk result (Adds code.old code.new (operand_of Op.AndThen (tree_of right.now))) }
{
    let length = expr_length(right);
    let zero = place_behind(code.len(), length.saturating_add(2))?;
    let end = place_behind(code.len(), length.saturating_add(3))?;
    code.push(Instr::JumpZero(zero))?;
    push_expr(code, right)?;
    code.push(Instr::Jump(end))?;
    code.push(Instr::Push(0))
}

// 1 where the left side is true, else the value of the right one.
#[cycle(push_expr)]
fn push_or_else(code: &mut ItemList<Instr>, right: &Expr) -> Result<(), NoMemory>
    ensures { OnOk result (Adds code.old code.new (operand_of Op.OrElse (tree_of right.now))) }
{
    let other = place_behind(code.len(), 3)?;
    let end = place_behind(code.len(), expr_length(right).saturating_add(3))?;
    code.push(Instr::JumpZero(other))?;
    code.push(Instr::Push(1))?;
    code.push(Instr::Jump(end))?;
    push_expr(code, right)
}

// The instruction of an operator that looks at both sides.
fn operator(op: Op) -> Instr
    ensures { result ≡ operator op }
{
    match op {
        Op::Add => Instr::Add,
        Op::Sub => Instr::Sub,
        Op::Mul => Instr::Mul,
        Op::Quot => Instr::Quot,
        Op::Mod => Instr::Mod,
        Op::Rem => Instr::Rem,
        Op::Eq => Instr::Eq,
        Op::Ne => Instr::Ne,
        Op::Lt => Instr::Lt,
        Op::Le => Instr::Le,
        Op::Gt => Instr::Gt,
        Op::Ge => Instr::Ge,
        Op::And | Op::AndThen => Instr::And,
        Op::Or | Op::OrElse => Instr::Or,
        Op::Xor => Instr::Xor,
    }
}
