//! The law of a scripted clock, which is a list of readings.
ghost use Rattle.std.specs.Prelude.{◌≡◌, ◌<◌, ◌≤◌, ℕ, List, length, take, slice_index};
ghost use Rattle.std.specs.List.Sorted.{IsNonDecreasing};
ghost use Rattle.pals_base.specs.ClockPicks.{picks};

/// If the readings never decrease, the selected readings never decrease. Each is at least its target. The
/// selected readings of the first targets do not depend on later targets.
pub fn picks_follow_targets()
    ensures never_fall { (readings targets : List ℕ) → IsNonDecreasing readings
        → IsNonDecreasing (picks readings targets) }
    ensures at_least { (readings targets : List ℕ) (at : ℕ)
        → at < length (picks readings targets) → slice_index targets at ≤ slice_index (picks readings targets) at }
    ensures first { (readings targets : List ℕ) (count : ℕ)
        → take count (picks readings targets) ≡ picks readings (take count targets) }
{}
