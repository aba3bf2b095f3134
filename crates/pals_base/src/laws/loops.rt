//! The law of the range of a loop.
ghost use Rattle.std.specs.Prelude.{◌≡◌, ◌<◌, ◌+ℤ◌, ◌-ℤ◌, ◌≤ℤ◌, ◌<ℤ◌, ℕ, ℤ, pos, [], ◌∷◌, length, slice_index_or, All};
ghost use Rattle.pals_base.specs.ForRanges.{numbers};

/// A loop iterates from its low end to its high end, both included, in steps of one. It has no iteration if the
/// low end is above the high end.
pub fn loop_goes_from_low_to_high()
    ensures row { numbers (pos 1) (pos 4) ≡ pos 1 ∷ pos 2 ∷ pos 3 ∷ pos 4 ∷ [] }
    ensures none { (low high : ℤ) → high <ℤ low → numbers low high ≡ [] }
    ensures count { (low high : ℤ) → low ≤ℤ high → pos (length (numbers low high)) ≡ (high -ℤ low) +ℤ pos 1 }
    ensures at { (low high : ℤ) (place : ℕ) (other : ℤ) → place < length (numbers low high)
        → slice_index_or (numbers low high) place other ≡ low +ℤ pos place }
    ensures within { (low high : ℤ) → All (λ n. (low ≤ℤ n) × (n ≤ℤ high)) (numbers low high) }
{}
