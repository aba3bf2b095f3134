//! The skew, ranges, timing bounds and rates of a design. Each is `None` if it is missing or rejected.
ghost use Rattle.std.specs.Prelude.{◌≡◌};
ghost use Rattle.component_checks.specs.BoundsAndRates.{within_hour, range_within, not_zero, in_order, skew_of};
ghost use Rattle.component_checks.specs.BoundsAndRates.{range_of, gamma_by, divides, is_rate, rate_of};

use pals_base::limits::{HOUR, RATE};
use pals_base::{Gamma, Nanos};

// A time of at most one hour.
fn within_hour(time: Nanos) -> Option<Nanos>
    ensures { result ≡ within_hour time }
{
    if time <= HOUR { Some(time) } else { None }
}

// A range, if both ends are at most one hour.
fn range_within(range: (Nanos, Nanos)) -> Option<(Nanos, Nanos)>
    ensures { result ≡ range_within range }
{
    if range.0 <= HOUR && range.1 <= HOUR {
        Some(range)
    } else {
        None
    }
}

fn not_zero(time: Nanos) -> Option<Nanos>
    ensures { result ≡ not_zero time }
{
    if time == 0 { None } else { Some(time) }
}

// A range that is not reversed.
fn in_order(range: (Nanos, Nanos)) -> Option<(Nanos, Nanos)>
    ensures { result ≡ in_order range }
{
    if range.0 <= range.1 {
        Some(range)
    } else {
        None
    }
}

/// Returns the skew in nanoseconds, or `None` if it is missing, 0 or above one hour.
pub fn skew_of(given: Option<Nanos>) -> Option<Nanos>
    ensures { result ≡ skew_of given }
{
    match given {
        None => None,
        Some(time) => match within_hour(time) {
            None => None,
            Some(time) => not_zero(time),
        },
    }
}

/// Returns the range of execution times or network delays in nanoseconds, or `None` if it is missing, reversed
/// or above one hour.
pub fn range_of(given: Option<(Nanos, Nanos)>) -> Option<(Nanos, Nanos)>
    ensures { result ≡ range_of given }
{
    match given {
        None => None,
        Some(range) => match range_within(range) {
            None => None,
            Some(range) => in_order(range),
        },
    }
}

/// Returns the timing bounds, if all three are present.
pub fn gamma_by(
    skew: Option<Nanos>,
    execution: Option<(Nanos, Nanos)>,
    network: Option<(Nanos, Nanos)>,
) -> Option<Gamma>
    ensures { result ≡ gamma_by skew execution network }
{
    let eps = skew?;
    let (alpha_min, alpha_max) = execution?;
    let (mu_min, mu_max) = network?;
    Some(Gamma {
        eps,
        alpha_min,
        alpha_max,
        mu_min,
        mu_max,
    })
}

/// Returns whether a period divides another.
pub fn divides(period: Nanos, whole: Nanos) -> bool
    ensures { result ≡ divides period whole }
{
    period != 0 && whole % period == 0
}

// Whether a period gives a component a rate between 1 and the maximum rate.
fn is_rate(root: Nanos, own: Nanos) -> bool
    ensures { result ≡ is_rate root own }
{
    divides(own, root) && 1 <= root / own && root / own <= u64::from(RATE)
}

/// Returns the number of steps per round of a component with period `own` if the root's period is `root`, or
/// `None` if it is not a valid rate.
pub fn rate_of(root: Option<Nanos>, own: Option<Nanos>) -> Option<u32>
    ensures { result ≡ rate_of root own }
{
    let root = root?;
    let own = own?;
    if is_rate(root, own) {
        Some((root / own) as u32)
    } else {
        None
    }
}
