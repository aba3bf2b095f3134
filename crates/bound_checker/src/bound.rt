//! The backoff and the minimum period of the timing bounds, and the check of a period.
ghost use Rattle.std.specs.Prelude.{◌≡◌, ◌≤◌, ◌↔◌, IsTrue};
ghost use Rattle.pals_base.specs.PeriodBoundAndReleases.{backoff, least_period};
ghost use Rattle.pals_base.specs.declared.limits.TheConstants.{RATE};
ghost use Rattle.bound_checker.specs.proof.OverflowLimits.{IsWithinHour};

use pals_base::{Gamma, Nanos};

/// Returns the output backoff: how long after its alarm a node delays its outputs, so that none arrives before
/// its target's round begins. It is twice the skew minus the minimum network delay, or 0 if the network is slow
/// enough.
pub fn backoff(gamma: &Gamma) -> Nanos
    requires { IsWithinHour gamma.now }
    ensures { result ≡ backoff gamma.now }
{
    gamma.backoff() as Nanos
}

/// Returns the minimum period that the bound allows if `rate` is the maximum rate of the design.
pub fn least_period(gamma: &Gamma, rate: u32) -> Nanos
    requires gamma { IsWithinHour gamma.now }
    requires rate { rate ≤ RATE }
    ensures { result ≡ least_period gamma.now rate }
{
    gamma.least_period(rate) as Nanos
}

/// Returns whether the period `t` satisfies the bound if `rate` is the maximum rate of the design.
pub fn meets(gamma: &Gamma, t: Nanos, rate: u32) -> bool
    requires gamma { IsWithinHour gamma.now }
    requires rate { rate ≤ RATE }
    ensures { IsTrue result ↔ (least_period gamma.now rate ≤ t) }
{
    least_period(gamma, rate) <= t
}
