//! Laws of tuples.
ghost use Rattle.std.specs.Prelude.{◌≡◌, ◌<◌, ◌≤◌, ℕ, List, length, slice_get, All};
ghost use Rattle.pals_base.specs.declared.basic_types.PortValue.{PortValue};
ghost use Rattle.pals_base.specs.Tuples.{column, columns, cut};

/// Cutting a tuple preserves its length, is idempotent, and has no effect past the end of the tuple.
pub fn cut_keeps_length()
    ensures length { (count : ℕ) (tuple : List PortValue) → length (cut count tuple) ≡ length tuple }
    ensures twice { (count : ℕ) (tuple : List PortValue) → cut count (cut count tuple) ≡ cut count tuple }
    ensures whole { (count : ℕ) (tuple : List PortValue) → length tuple ≤ count → cut count tuple ≡ tuple }
{}

/// The number of columns is the requested number; they are in order, and each has a place for each list.
pub fn columns_follow_lists()
    ensures count { (count : ℕ) (lists : List (List PortValue)) → length (columns count lists) ≡ count }
    ensures place { (count : ℕ) (lists : List (List PortValue)) (at : ℕ) → at < count
        → slice_get (columns count lists) at ≡ Some (column at lists) }
    ensures each { (count : ℕ) (lists : List (List PortValue))
        → All (λ column. length column ≡ length lists) (columns count lists) }
{}
