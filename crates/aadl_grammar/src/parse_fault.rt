//! The reason why tokens have no tree.

use std::alloc::{AllocError, AllocFailed};
use thiserror::Error;

/// The first fault of a text; each `at` is a byte offset.
#[derive(Clone, Copy, Debug, Error)]
pub enum ParseFault {
    /// No text of the grammar continues with the token at `at` or, at the end of the text, ends there.
    #[error("Syntax")]
    Syntax { at: usize },
    /// The opener at `at` is nested too deep.
    #[error("TooDeep")]
    TooDeep { at: usize },
    /// Out of memory.
    #[error("Memory")]
    Memory,
}

impl From<AllocError> for ParseFault {
    ghost use Rattle.std.specs.Prelude.{◌≡◌};
    ghost use Rattle.aadl_grammar.specs.declared.parse_fault.ParseFault.TheVariants.{Memory};

    ghost from_gives = { λ _ e. e ≡ Memory };

    fn from(_error: AllocError) -> ParseFault {
        ParseFault::Memory
    }
}

impl<T: Drop> From<AllocFailed<T>> for ParseFault {
    ghost use Rattle.std.specs.Prelude.{◌≡◌};
    ghost use Rattle.aadl_grammar.specs.declared.parse_fault.ParseFault.TheVariants.{Memory};

    ghost from_gives = { λ _ e. e ≡ Memory };

    fn from(_error: AllocFailed<T>) -> ParseFault {
        ParseFault::Memory
    }
}
