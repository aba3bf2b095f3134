//! Arithmetic on signed numbers of 64 bits: the exact result, or a trap.
ghost use Rattle.std.specs.Prelude.{◌≡◌};
ghost use Rattle.pals_base.specs.Arithmetic.{sum_of, difference_of, product_of, quotient_of, remainder_of, modulus_of};
ghost use Rattle.pals_base.specs.Arithmetic.{negation_of, magnitude_of};

use crate::basic_types::Trap;

/// Returns the sum. Errors: `Overflow` if the sum does not fit 64 bits.
pub fn add(a: i64, b: i64) -> Result<i64, Trap>
    ensures { result ≡ sum_of a b }
{
    a.checked_add(b).ok_or(Trap::Overflow)
}

/// Returns the difference. Errors: `Overflow` if the difference does not fit 64 bits.
pub fn sub(a: i64, b: i64) -> Result<i64, Trap>
    ensures { result ≡ difference_of a b }
{
    a.checked_sub(b).ok_or(Trap::Overflow)
}

/// Returns the product. Errors: `Overflow` if the product does not fit 64 bits.
pub fn mul(a: i64, b: i64) -> Result<i64, Trap>
    ensures { result ≡ product_of a b }
{
    a.checked_mul(b).ok_or(Trap::Overflow)
}

/// Returns the quotient, rounded towards zero. Errors: `ZeroDivisor` if the divisor is 0, and `Overflow` if the
/// quotient does not fit 64 bits.
pub fn quot(a: i64, b: i64) -> Result<i64, Trap>
    ensures { result ≡ quotient_of a b }
{
    if b == 0 {
        return Err(Trap::ZeroDivisor);
    }
    a.checked_div(b).ok_or(Trap::Overflow)
}

/// Returns the remainder, which has the dividend's sign. Errors: `ZeroDivisor` if the divisor is 0.
pub fn rem(a: i64, b: i64) -> Result<i64, Trap>
    ensures { result ≡ remainder_of a b }
{
    if b == 0 {
        return Err(Trap::ZeroDivisor);
    }
    Ok(a.wrapping_rem(b))
}

/// Returns the modulus, which has the divisor's sign. Errors: `ZeroDivisor` if the divisor is 0.
pub fn modulo(a: i64, b: i64) -> Result<i64, Trap>
    ensures { result ≡ modulus_of a b }
{
    let left = rem(a, b)?;
    if left != 0 && (left < 0) != (b < 0) {
        add(left, b)
    } else {
        Ok(left)
    }
}

/// Returns the number with the opposite sign. Errors: `Overflow` for -2^63.
pub fn neg(a: i64) -> Result<i64, Trap>
    ensures { result ≡ negation_of a }
{
    a.checked_neg().ok_or(Trap::Overflow)
}

/// Returns the absolute value. Errors: `Overflow` for -2^63.
pub fn abs(a: i64) -> Result<i64, Trap>
    ensures { result ≡ magnitude_of a }
{
    if a < 0 { neg(a) } else { Ok(a) }
}
