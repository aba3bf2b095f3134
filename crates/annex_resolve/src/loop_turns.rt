//! The numbers of iterations of loops.
ghost use Rattle.std.specs.Prelude.{◌≡◌, ◌+◌, ◌^◌, ◌<◌, ◌≤◌, IfOk};
ghost use Rattle.pals_base.specs.declared.limits.TheConstants.{NESTED_TURNS};
ghost use Rattle.pals_base.specs.TypingRules as base;
ghost use Rattle.annex_resolve.specs.ResolvedTrees.{bound_value};
ghost use Rattle.annex_resolve.specs.ActionFindings.{turns_with_outer, is_too_long};

use aadl_tree::Bound;
use pals_base::NoMemory;
use pals_base::limits::{NESTED_TURNS, TURNS};
use std::alloc::AllocError;

/// Returns the bound of a loop as a number. Errors: out of memory, for a number that no text spells and that
/// does not fit 64 bits.
pub fn signed(bound: Bound) -> Result<i64, NoMemory>
    ensures { IfOk result (λ number. number ≡ bound_value bound) }
{
    if bound.negative {
        return bound.value.checked_neg().ok_or(AllocError);
    }
    Ok(bound.value)
}

/// Returns the number of iterations of a loop.
pub fn count_turns(low: i64, high: i64) -> u128
    ensures value { result ≡ base.turns low high }
    ensures bound { result < 2 ^ 65 }
{
    if high < low {
        return 0;
    }
    (i128::from(high) - i128::from(low) + 1) as u128
}

/// Returns the iterations of a loop multiplied with the enclosing loops, up to one more than the limit.
pub fn turns_with_outer(around: u64, turns: u128) -> u64
    requires around { around ≤ NESTED_TURNS + 1 }
    requires turns { turns < 2 ^ 65 }
    ensures value { result ≡ turns_with_outer around turns }
    ensures most { result ≤ NESTED_TURNS + 1 }
{
    let all = u128::from(around) * turns;
    all.min(u128::from(NESTED_TURNS) + 1) as u64
}

/// Returns whether the iterations of a loop exceed the limit, by themselves or multiplied with the enclosing
/// loops.
pub fn is_too_long(around: u64, turns: u128) -> bool
    requires around { around ≤ NESTED_TURNS + 1 }
    requires turns { turns < 2 ^ 65 }
    ensures { result ≡ is_too_long around turns }
{
    turns > u128::from(TURNS) || turns_with_outer(around, turns) > NESTED_TURNS
}
