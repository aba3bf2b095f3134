//! The operators of behaviours for the operators of a text.
ghost use Rattle.std.specs.Prelude.{◌≡◌};
ghost use Rattle.annex_resolve.specs.ExpressionTypesAndFindings.{is_equality};
ghost use Rattle.annex_resolve.specs.ResolvedTrees.{multiply_op, sign_op, relation_op, logic_op};

use aadl_tree::{LogicOperator, MultiplyOperator, RelationOperator, Sign};
use pals_base::Op;

/// Returns whether both operands may have either type.
pub fn is_equality(operator: RelationOperator) -> bool
    ensures { result ≡ is_equality operator }
{
    matches!(
        operator,
        RelationOperator::Equal | RelationOperator::NotEqual
    )
}

/// Returns the operator between two factors.
pub fn multiply_op(operator: MultiplyOperator) -> Op
    ensures { result ≡ multiply_op operator }
{
    match operator {
        MultiplyOperator::Times => Op::Mul,
        MultiplyOperator::Divide => Op::Quot,
        MultiplyOperator::Mod => Op::Mod,
        MultiplyOperator::Rem => Op::Rem,
    }
}

/// Returns the operator between two terms.
pub fn sign_op(sign: Sign) -> Op
    ensures { result ≡ sign_op sign }
{
    match sign {
        Sign::Plus => Op::Add,
        Sign::Minus => Op::Sub,
    }
}

/// Returns the operator between two sums.
pub fn relation_op(operator: RelationOperator) -> Op
    ensures { result ≡ relation_op operator }
{
    match operator {
        RelationOperator::Equal => Op::Eq,
        RelationOperator::NotEqual => Op::Ne,
        RelationOperator::Less => Op::Lt,
        RelationOperator::LessOrEqual => Op::Le,
        RelationOperator::Greater => Op::Gt,
        RelationOperator::GreaterOrEqual => Op::Ge,
    }
}

/// Returns the operator between two relations.
pub fn logic_op(operator: LogicOperator) -> Op
    ensures { result ≡ logic_op operator }
{
    match operator {
        LogicOperator::And => Op::And,
        LogicOperator::Or => Op::Or,
        LogicOperator::Xor => Op::Xor,
        LogicOperator::AndThen => Op::AndThen,
        LogicOperator::OrElse => Op::OrElse,
    }
}
