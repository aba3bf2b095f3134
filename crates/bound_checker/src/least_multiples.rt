//! The least multiple: the shortest period that satisfies the bound and that every rate divides.
ghost use Rattle.std.specs.Prelude.{◌≡◌, All, MatchOption};
ghost use Rattle.bound_checker.specs.proof.OverflowLimits.{IsWithinHour, IsRate};
ghost use Rattle.bound_checker.specs.LeastMultiples.{greatest_rate, IsLeastMultiple, HasNoMultiple};
ghost use Rattle.bound_checker.specs.proof.RateMultiples.{HasMultiplesOf};

use crate::bound::least_period;
use crate::common_multiple::lcm;
use pals_base::limits::HOUR;
use pals_base::{Gamma, Nanos};

/// Returns the smallest period that satisfies the bound and is a multiple of every rate. The bound is that of
/// the maximum rate, or of rate 1 without rates. Returns `None` if and only if every such period is longer than
/// one hour. The result can be 0 if skew, execution times and network delays are all 0; with a skew of at least
/// 1 it is positive.
pub fn least_multiple(gamma: &Gamma, rates: &[u32]) -> Option<Nanos>
    requires gamma { IsWithinHour gamma.now }
    requires rates { All IsRate rates.now }
    ensures { MatchOption result
        (HasNoMultiple gamma.now rates.now)
        (IsLeastMultiple gamma.now rates.now) }
{
    let least = least_period(gamma, greatest_rate(rates));
    let period = least.next_multiple_of(common_multiple(rates));
    if period <= HOUR { Some(period) } else { None }
}

// The maximum rate, or 1 without rates.
fn greatest_rate(rates: &[u32]) -> u32
    requires { All IsRate rates.now }
    ensures value { result ≡ greatest_rate rates.now }
    ensures rate { IsRate result }
{
    rates.iter().fold(1, |greatest, &rate| greatest.max(rate))
}

// The least common multiple of these rates, capped at one nanosecond more than an hour: no period is a multiple
// of a larger number.
fn common_multiple(rates: &[u32]) -> u64
    requires { All IsRate rates.now }
    ensures { HasMultiplesOf rates.now result }
{
    let mut common = 1;
    for &rate in rates {
        common = lcm(common, u64::from(rate)).min(HOUR + 1);
    }
    common
}
