//! Releases: a node holds the messages of a round until its clock is past the round's alarm by the
//! component's release offset, so that no message reaches a target that has not started the round.
//! The offset is the backoff of the bound, or more if the last step that is sent starts
//! later. All times are nanoseconds. No call allocates.
#![tactic(auto)]

pub mod laws;

ghost use Rattle.std.specs.Prelude.{◌≡◌, ◌+◌, ◌≤◌, ◌↔◌, IsTrue};
ghost use Rattle.pals_base.specs.PeriodBoundAndReleases.{alarm};
ghost use Rattle.pals_base.specs.declared.limits.TheConstants.{HOUR, ROUNDS};

use pals_base::Nanos;
use round_timer::alarm;

/// The reading from which on a node may send its outputs of a round, at period `t`.
pub fn release_at(t: Nanos, release_offset: Nanos, round: u32) -> Nanos
    requires period { t ≤ HOUR }
    requires offset { release_offset ≤ HOUR }
    requires round { round ≤ ROUNDS }
    ensures { result ≡ alarm t round + release_offset }
{
    alarm(t, round) + release_offset
}

/// Whether a node may send its outputs of a round: the steps whose outputs go are finished, and the
/// node's clock reads at least the release.
pub fn may_release(
    t: Nanos,
    release_offset: Nanos,
    round: u32,
    reading: Nanos,
    finished: bool,
) -> bool
    requires period { t ≤ HOUR }
    requires offset { release_offset ≤ HOUR }
    requires round { round ≤ ROUNDS }
    ensures { IsTrue result ↔ (IsTrue finished × (alarm t round + release_offset ≤ reading)) }
{
    finished && release_at(t, release_offset, round) <= reading
}
