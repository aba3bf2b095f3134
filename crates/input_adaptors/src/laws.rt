//! What holds of every adaptor. Each law is the contract of a function that does nothing.
ghost use Rattle.std.specs.Prelude.{◌≡◌, ◌≢◌, ℕ, ◌+◌, ◌*◌, ◌/◌, ◌<◌, ◌≤◌, ℤ, List, length, flat_map, slice_get, All};
ghost use Rattle.std.specs.Prelude.{Contains, IsTrue, Option};
ghost use Rattle.pals_base.specs.declared.basic_types.PortValue.{PortValue};
ghost use Rattle.pals_base.specs.declared.basic_types.PortValue.TheVariants.{Absent, Present};
ghost use Rattle.pals_base.specs.declared.allowed_adaptors.Adaptor.{Adaptor};
ghost use Rattle.pals_base.specs.declared.allowed_adaptors.Adaptor.TheVariants.{Latest, Max, Min, Average};
ghost use Rattle.pals_base.specs.Adaptors.{adapt, groups, joined};
ghost use Rattle.pals_base.specs.AllowedAdaptors.{is_allowed, divides_or_divided};
ghost use Rattle.input_adaptors.specs.proof.PlacesAndGroupValues.{group_at, TakesPlace, MakesNumber, IsAboveSome};
ghost use Rattle.input_adaptors.specs.proof.PlacesAndGroupValues.{IsBelowSome, IsLeast, IsGreatest, IsLatest};

/// Between two rates, one of which divides the other, and where it is allowed, an adaptor takes a
/// whole tuple of the source to a whole tuple of the target.
pub fn allowed_adaptors_meet_the_rate()
    ensures { (adaptor : Option Adaptor) (p q : ℕ) (tuple : List PortValue) → 0 < p →
        IsTrue (divides_or_divided p q) → IsTrue (is_allowed adaptor p q) →
        length tuple ≡ p → length (adapt adaptor p q tuple) ≡ q }
{}

/// Cut into `count` groups of `m`, a tuple of `count` times `m` places gives equal groups, and loses
/// no place.
pub fn groups_are_equal()
    ensures equal { (count m : ℕ) (tuple : List PortValue) →
        length tuple ≡ count * m → All (λ group. length group ≡ m) (groups count m tuple) }
    ensures whole { (count m : ℕ) (tuple : List PortValue) →
        length tuple ≡ count * m → flat_map (λ group. group) (groups count m tuple) ≡ tuple }
{}

/// To a higher rate, a value is in the places that its adaptor names, and the others are absent.
pub fn values_stand_in_their_places()
    ensures there { (adaptor : Adaptor) (p q i j : ℕ) (tuple : List PortValue) → p < q
        → IsTrue (is_allowed (Some adaptor) p q) →
        length tuple ≡ p → i < p → j < q / p → TakesPlace adaptor (q / p) j →
        slice_get (adapt (Some adaptor) p q tuple) (i * (q / p) + j) ≡ slice_get tuple i }
    ensures absent { (adaptor : Adaptor) (p q i j : ℕ) (tuple : List PortValue) → p < q
        → IsTrue (is_allowed (Some adaptor) p q) →
        length tuple ≡ p → i < p → j < q / p → ¬ TakesPlace adaptor (q / p) j →
        slice_get (adapt (Some adaptor) p q tuple) (i * (q / p) + j) ≡ Some Absent }
{}

/// To a rate that is not higher, each place of the target is made of its own group of the source's
/// places.
pub fn places_are_made_of_groups()
    ensures { (adaptor : Adaptor) (p q k : ℕ) (tuple : List PortValue) → q ≤ p → k < q →
        slice_get (adapt (Some adaptor) p q tuple) k ≡ Some (joined adaptor (group_at p q k tuple)) }
{}

/// Each present number that an adaptor other than `Average` gives is a present number of the source.
pub fn numbers_come_from_the_source()
    ensures { (adaptor : Option Adaptor) (p q : ℕ) (tuple : List PortValue) (v : ℤ) → adaptor ≢ Some Average →
        Contains (adapt adaptor p q tuple) (Present v) → Contains tuple (Present v) }
{}

/// A group with no present number gives none. With one, `Latest`, `Max`, `Min` and `Average` give
/// one.
pub fn silence_gives_silence()
    ensures silent { (adaptor : Adaptor) (group : List PortValue) →
        All (λ port. port ≡ Absent) group → joined adaptor group ≡ Absent }
    ensures heard { (adaptor : Adaptor) (group : List PortValue) (v : ℤ) →
        MakesNumber adaptor → Contains group (Present v) → joined adaptor group ≢ Absent }
{}

/// `Latest` gives the last present number of a group.
pub fn latest_is_last()
    ensures { (group : List PortValue) (v : ℤ) → joined Latest group ≡ Present v → IsLatest group v }
{}

/// `Min` gives the minimum present number of a group, and `Max` the maximum.
pub fn extremes_bound_their_group()
    ensures least { (group : List PortValue) (v : ℤ) → joined Min group ≡ Present v → IsLeast group v }
    ensures greatest { (group : List PortValue) (v : ℤ) → joined Max group ≡ Present v → IsGreatest group v }
{}

/// Each average is between the minimum and the maximum present number of its group.
pub fn averages_lie_within_their_group()
    ensures above { (p q k : ℕ) (tuple : List PortValue) (v : ℤ) → q ≤ p →
        slice_get (adapt (Some Average) p q tuple) k ≡ Some (Present v) → IsAboveSome (group_at p q k tuple) v }
    ensures below { (p q k : ℕ) (tuple : List PortValue) (v : ℤ) → q ≤ p →
        slice_get (adapt (Some Average) p q tuple) k ≡ Some (Present v) → IsBelowSome (group_at p q k tuple) v }
{}
