//! What holds of every alarm. Each law is the contract of a function that does nothing.
ghost use Rattle.std.specs.Prelude.{◌≡◌, ℕ, ◌+◌, ◌*◌, ◌^◌, ◌<◌, ◌≤◌};
ghost use Rattle.pals_base.specs.PeriodBoundAndReleases.{alarm, step_period};
ghost use Rattle.pals_base.specs.declared.limits.TheConstants.{HOUR, ROUNDS};

/// Each alarm is one period after the one before, and the first is one period after 0.
pub fn alarms_are_one_period_apart()
    ensures first { (t : ℕ) → alarm t 0 ≡ t }
    ensures next { (t round : ℕ) → alarm t (round + 1) ≡ alarm t round + t }
{}

/// If `k` steps share a round, each is due before the next round is.
pub fn steps_lie_within_their_round()
    ensures { (t k round step : ℕ) → 0 < t → step < k → alarm t round + step * step_period t k < alarm t (round + 1) }
{}

/// No alarm of a run leaves 59 bits.
pub fn alarms_are_small()
    ensures { (t period round step : ℕ) → t ≤ HOUR → period ≤ HOUR → round ≤ ROUNDS → step < 64 →
        alarm t round + step * period < 2 ^ 59 }
{}
