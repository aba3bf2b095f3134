//! Laws of arithmetic with traps.
ghost use Rattle.std.specs.Prelude.{◌≡◌, ◌≢◌, ◌-◌, ◌^◌, ℤ, pos, negsuc, Bool, List, IsOkAnd};
ghost use Rattle.pals_base.specs.declared.frames.Frame.{Frame};
ghost use Rattle.pals_base.specs.declared.behaviour.Op.TheVariants.{Sub};
ghost use Rattle.pals_base.specs.Arithmetic.{quotient_of, remainder_of, modulus_of, negation_of, magnitude_of};
ghost use Rattle.pals_base.specs.proof.RemaindersAndModuli.{IsRemainder, IsModulus};
ghost use Rattle.pals_base.specs.ExpressionAndActionTrees.{Literal, Chain, NoMore, Then};
ghost use Rattle.pals_base.specs.ExpressionValues.{eval};

use crate::basic_types::Trap;

/// Division by a divisor other than 0 has a remainder. The quotient, rounded towards zero, times the divisor
/// plus the remainder is the dividend. The remainder's magnitude is below the divisor's, and it has the
/// dividend's sign.
pub fn remainder_has_sign_of_dividend()
    ensures { (a b : ℤ) → b ≢ pos 0 → IsOkAnd (remainder_of a b) (IsRemainder a b) }
{}

/// Division by a divisor other than 0 has a modulus. It differs from the dividend by a multiple of the divisor,
/// its magnitude is below the divisor's, and it has the divisor's sign.
pub fn modulus_has_sign_of_divisor()
    ensures { (a b : ℤ) → b ≢ pos 0 → IsOkAnd (modulus_of a b) (IsModulus a b) }
{}

/// Examples: quotients are rounded towards zero, a remainder has the dividend's sign, and a modulus the
/// divisor's.
pub fn worked_divisions()
    ensures quot_positive { quotient_of (pos 7) (pos 2) ≡ Ok (pos 3) }
    ensures quot_negative { quotient_of (negsuc 6) (pos 2) ≡ Ok (negsuc 2) }
    ensures rem_by_negative { remainder_of (pos 7) (negsuc 2) ≡ Ok (pos 1) }
    ensures rem_of_negative { remainder_of (negsuc 6) (pos 3) ≡ Ok (negsuc 0) }
    ensures mod_by_negative { modulus_of (pos 7) (negsuc 2) ≡ Ok (negsuc 1) }
    ensures mod_of_negative { modulus_of (negsuc 6) (pos 3) ≡ Ok (pos 2) }
    ensures mod_of_both { modulus_of (negsuc 6) (negsuc 2) ≡ Ok (negsuc 0) }
    ensures mod_exact { modulus_of (negsuc 5) (pos 3) ≡ Ok (pos 0) }
{}

/// Examples: a divisor of 0 traps, and so does a result that does not fit 64 bits.
pub fn arithmetic_traps()
    ensures quot_by_0 { (a : ℤ) → quotient_of a (pos 0) ≡ Err Trap.ZeroDivisor }
    ensures rem_by_0 { (a : ℤ) → remainder_of a (pos 0) ≡ Err Trap.ZeroDivisor }
    ensures mod_by_0 { (a : ℤ) → modulus_of a (pos 0) ≡ Err Trap.ZeroDivisor }
    ensures neg_of_least { negation_of (negsuc (2 ^ 63 - 1)) ≡ Err Trap.Overflow }
    ensures abs_of_least { magnitude_of (negsuc (2 ^ 63 - 1)) ≡ Err Trap.Overflow }
    ensures quot_of_least { quotient_of (negsuc (2 ^ 63 - 1)) (negsuc 0) ≡ Err Trap.Overflow }
{}

/// Chains are evaluated from left to right: 9 - 4 - 3 is 2.
pub fn operators_associate_left()
    ensures { (frame : Frame) (fresh : List Bool)
        → eval (Chain (Literal (pos 9)) (Then Sub (Literal (pos 4)) (Then Sub (Literal (pos 3)) NoMore))) frame fresh
        ≡ Ok (pos 2) }
{}
