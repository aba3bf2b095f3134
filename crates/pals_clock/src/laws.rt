//! Laws of the picks of a clock, one call after another.
ghost use Rattle.std.specs.Prelude.{◌≡◌, ◌<◌, ◌≤◌, ℕ, List, [], ◌∷◌, ◌++◌, length, All, filter, nat_le, slice_get};
ghost use Rattle.std.specs.List.Sorted.{IsNonDecreasing};
ghost use Rattle.pals_base.specs.ClockPicks.{picks, remaining_from};
ghost use Rattle.pals_clock.specs.ClockStates.{left_after};

/// A clock that picks a reading gives the first of the picks, and the rest of its list gives the others.
/// A clock that has ended has no pick, for that target or any later one, and it fails for every greater
/// target too.
pub fn picks_go_step_by_step()
    ensures pick { (left targets : List ℕ) (target reading : ℕ)
        → slice_get (remaining_from left target) 0 ≡ Some reading
        → picks left (target ∷ targets) ≡ reading ∷ picks (remaining_from left target) targets }
    ensures ended { (left targets : List ℕ) (target : ℕ) → All (λ reading. reading < target) left
        → picks left (target ∷ targets) ≡ [] }
    ensures stays_ended { (left : List ℕ) (target later : ℕ) → target ≤ later
        → All (λ reading. reading < target) left → All (λ reading. reading < later) left }
{}

/// The picks for further targets follow the earlier picks, from the rest of the list.
pub fn picks_go_on()
    ensures { (readings targets later : List ℕ) → length (picks readings targets) ≡ length targets
        → picks readings (targets ++ later) ≡ picks readings targets ++ picks (left_after readings targets) later }
{}

/// The rest at a target of readings that don't fall is every reading that is at least the target.
pub fn reached_is_what_is_not_below()
    ensures { (left : List ℕ) (target : ℕ) → IsNonDecreasing left
        → remaining_from left target ≡ filter (λ reading. nat_le target reading) left }
{}
