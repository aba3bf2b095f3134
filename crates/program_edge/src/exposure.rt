//! Whether the bytes of a reader or a writer are known.
ghost use Rattle.std.specs.Prelude.{false, Bool};

use std::marker::Brand;

/// Whether the bytes of a reader or a writer are known from a call on. It has no code: a proof picks the value
/// for [`Brand`] at a call, and without a pick no bytes are known.
pub trait Exposure {
    ghost exposed: { Bool };
}

impl Exposure for Brand {
    ghost exposed = { false };
}
