//! Alarms: the readings of a node's clock at which its rounds and their steps are due. All times are
//! nanoseconds. No call allocates.
#![tactic(auto)]

pub mod laws;

ghost use Rattle.std.specs.Prelude.{◌≡◌, ◌+◌, ◌*◌, ◌<◌, ◌≤◌, ◌↔◌, IsTrue};
ghost use Rattle.pals_base.specs.PeriodBoundAndReleases.{alarm};
ghost use Rattle.pals_base.specs.declared.limits.TheConstants.{HOUR, ROUNDS};

use pals_base::Nanos;

/// The alarm of a round at period `t`: the reading from which on a node may start it. Round 0 is
/// due one period after the clock's 0, so that a clock may lag in the first round.
pub fn alarm(t: Nanos, round: u32) -> Nanos
    requires period { t ≤ HOUR }
    requires round { round ≤ ROUNDS }
    ensures { result ≡ alarm t round }
{
    (u64::from(round) + 1) * t
}

/// The reading from which on a node may start a step, from 0, of a round, where its steps are
/// `period` apart.
pub fn step_alarm(t: Nanos, period: Nanos, round: u32, step: u32) -> Nanos
    requires round_period { t ≤ HOUR }
    requires step_period { period ≤ HOUR }
    requires round { round ≤ ROUNDS }
    requires step { step < 64 }
    ensures { result ≡ alarm t round + step * period }
{
    alarm(t, round) + u64::from(step) * period
}

/// Whether a round is due at a reading of the node's clock.
pub fn due(t: Nanos, round: u32, reading: Nanos) -> bool
    requires period { t ≤ HOUR }
    requires round { round ≤ ROUNDS }
    ensures { IsTrue result ↔ (alarm t round ≤ reading) }
{
    alarm(t, round) <= reading
}
