//! The minimum period that the bounds allow, and the times in a round at which a node may send each step's
//! outputs. All times are nanoseconds. The results are exact for all arguments. The functions do not allocate.
ghost use Rattle.std.specs.Prelude.{◌≡◌, ◌/◌};
ghost use Rattle.pals_base.specs.PeriodBoundAndReleases.{backoff, least_period, step_period, sent_steps};
ghost use Rattle.pals_base.specs.PeriodBoundAndReleases.{release_offset};

use crate::basic_types::Nanos;

/// The timing bounds of a system, in nanoseconds: the deviation of a clock from the time (below `eps`), the
/// execution time of a step, and the delay of a message.
#[derive(Clone, Copy, PartialEq)]
pub struct Gamma {
    pub eps: Nanos,
    pub alpha_min: Nanos,
    pub alpha_max: Nanos,
    pub mu_min: Nanos,
    pub mu_max: Nanos,
}

impl Gamma {
    /// Returns the output backoff: how long a node delays its outputs, so that none arrives before its target's
    /// round begins.
    pub fn backoff(&self) -> u128
        ensures { result ≡ backoff self.now }
    {
        (2 * u128::from(self.eps)).saturating_sub(u128::from(self.mu_min))
    }

    /// Returns the minimum period that the bounds allow if `rate` is the maximum rate.
    pub fn least_period(&self, rate: u32) -> u128
        ensures { result ≡ least_period self.now rate }
    {
        let execution = u128::from(self.alpha_max);
        let round = u128::from(self.mu_max)
            + 2 * u128::from(self.eps)
            + self.backoff().max(execution);
        round.max(u128::from(rate) * execution)
    }

    /// Returns how many of the `rate` steps in a round of `t` end early enough for the round's message to carry
    /// their outputs.
    pub fn sent_steps(&self, t: Nanos, rate: u32) -> u32
        ensures { result ≡ sent_steps self.now t rate }
    {
        let spare = t
            .saturating_sub(self.mu_max)
            .saturating_sub(self.eps.saturating_mul(2))
            .saturating_sub(self.alpha_max);
        let later = quotient(spare, step_period(t, rate));
        u64::from(rate).min(later.saturating_add(1)) as u32
    }

    /// Returns how long after its alarm a component with `rate` steps in a round of `t` may send its outputs.
    pub fn release_offset(&self, t: Nanos, rate: u32) -> u128
        ensures { result ≡ release_offset self.now t rate }
    {
        let later = u128::from(self.sent_steps(t, rate).saturating_sub(1));
        self.backoff().max(later * u128::from(step_period(t, rate)))
    }
}

/// Returns the time between consecutive steps of a component with `rate` steps in a round of `t`, or 0 if the
/// rate is 0.
pub fn step_period(t: Nanos, rate: u32) -> Nanos
    ensures { result ≡ step_period t rate }
{
    quotient(t, u64::from(rate))
}

// The quotient, or 0 if the divisor is 0.
fn quotient(time: Nanos, divisor: u64) -> u64
    ensures { result ≡ time / divisor }
{
    time.checked_div(divisor).unwrap_or(0)
}
