//! Alarms and releases, by worked numbers.
use output_backoff::{may_release, release_at};
use round_timer::{alarm, due, step_alarm};

/// Whether nodes wake at the alarms of the rounds, and at no reading before.
pub fn are_alarms() -> bool {
    let alarms = [
        alarm(9_000_000, 0),
        alarm(9_000_000, 1),
        alarm(3_600_000_000_000, 100_000),
    ];
    alarms == [9_000_000, 18_000_000, 360_003_600_000_000_000]
        && due(9_000_000, 0, 9_000_000)
        && !due(9_000_000, 0, 8_999_999)
}

/// Whether the steps of a round are made at their alarms.
pub fn are_step_alarms() -> bool {
    let alarms = [
        step_alarm(20_000_000, 5_000_000, 0, 0),
        step_alarm(20_000_000, 5_000_000, 0, 1),
        step_alarm(20_000_000, 5_000_000, 0, 3),
        step_alarm(20_000_000, 5_000_000, 2, 2),
    ];
    alarms == [20_000_000, 25_000_000, 35_000_000, 70_000_000]
}

/// Whether outputs are held back up to their release.
pub fn are_releases() -> bool {
    let releases = [
        release_at(9_000_000, 1_000_000, 0),
        release_at(20_000_000, 10_000_000, 0),
    ];
    releases == [10_000_000, 30_000_000]
        && may_release(9_000_000, 1_000_000, 0, 10_000_000, true)
        && !may_release(9_000_000, 1_000_000, 0, 9_999_999, true)
        && !may_release(9_000_000, 1_000_000, 0, 10_000_000, false)
}
