//! Operators on numbers that are both there.
ghost use Rattle.std.specs.Prelude.{◌≡◌};
ghost use Rattle.pals_base.specs.ExpressionValues.{applied, is_true, truth};

use pals_base::{Op, Trap};

/// The value of an operator at two numbers.
#[inline(always)]
pub fn apply(op: Op, left: i64, right: i64) -> Result<i64, Trap>
    ensures { result ≡ applied op left right }
{
    match op {
        Op::Add => pals_base::add(left, right),
        Op::Sub => pals_base::sub(left, right),
        Op::Mul => pals_base::mul(left, right),
        Op::Quot => pals_base::quot(left, right),
        Op::Mod => pals_base::modulo(left, right),
        Op::Rem => pals_base::rem(left, right),
        Op::Eq => Ok(number_of(left == right)),
        Op::Ne => Ok(number_of(left != right)),
        Op::Lt => Ok(number_of(left < right)),
        Op::Le => Ok(number_of(left <= right)),
        Op::Gt => Ok(number_of(left > right)),
        Op::Ge => Ok(number_of(left >= right)),
        Op::And => Ok(number_of(holds(left) && holds(right))),
        Op::Or => Ok(number_of(holds(left) || holds(right))),
        Op::Xor => Ok(number_of(holds(left) != holds(right))),
        Op::AndThen => Ok(if holds(left) { right } else { 0 }),
        Op::OrElse => Ok(if holds(left) { 1 } else { right }),
    }
}

/// Whether a number counts as true.
#[inline(always)]
pub fn holds(value: i64) -> bool
    ensures { result ≡ is_true value }
{
    value != 0
}

/// 1 for true, and 0 for false.
#[inline(always)]
pub fn number_of(yes: bool) -> i64
    ensures { result ≡ truth yes }
{
    if yes { 1 } else { 0 }
}
