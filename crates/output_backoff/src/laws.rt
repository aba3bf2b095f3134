//! What holds of every release. The law is the contract of a function that does nothing.
ghost use Rattle.std.specs.Prelude.{ℕ, ◌+◌, ◌<◌};
ghost use Rattle.pals_base.specs.PeriodBoundAndReleases.{alarm};

/// With an offset below the period, the release of a round lies before the next alarm.
pub fn release_lies_within_its_round()
    ensures { (t offset round : ℕ) → offset < t → alarm t round + offset < alarm t (round + 1) }
{}
