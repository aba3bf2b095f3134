//! The trait of values that are compared by their meaning.
ghost use Rattle.std.specs.Prelude.{◌≡◌, ◌↔◌, IsTrue};

/// A value that is compared by its meaning.
pub trait Same {
    ghost Meaning: { Type 0 };

    ghost meaning: { Self → Meaning };

    /// Returns whether another value has the same meaning.
    fn same(&self, other: &Self) -> bool
        ensures { IsTrue result ↔ (meaning self.now ≡ meaning other.now) };
}
