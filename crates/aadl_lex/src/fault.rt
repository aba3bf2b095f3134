//! The reason why a text has no tokens.

use std::alloc::{AllocError, AllocFailed};
use thiserror::Error;

/// The first fault of a text, each `at` a byte offset.
#[derive(Clone, Copy, Debug, Error)]
pub enum LexFault {
    /// No UTF-8 character begins at `at`.
    #[error("NotUtf8")]
    NotUtf8 { at: usize },
    /// No token begins at `at`.
    #[error("BadByte")]
    BadByte { at: usize },
    /// The string that begins at `at` has no closing quote on its line.
    #[error("OpenString")]
    OpenString { at: usize },
    /// The annex that begins at `at` has no `**}`.
    #[error("OpenAnnex")]
    OpenAnnex { at: usize },
    /// The whole number that begins at `at` is above 9223372036854775807.
    #[error("BigNumber")]
    BigNumber { at: usize },
    /// The word that begins at `at` has more than 64 bytes.
    #[error("LongName")]
    LongName { at: usize },
    /// Out of memory.
    #[error("Memory")]
    Memory,
}

impl From<AllocError> for LexFault {
    ghost use Rattle.std.specs.Prelude.{◌≡◌};
    ghost use Rattle.aadl_lex.specs.declared.fault.LexFault.TheVariants.{Memory};

    ghost from_gives = { λ _ e. e ≡ Memory };

    fn from(_error: AllocError) -> LexFault {
        LexFault::Memory
    }
}

impl<T: Drop> From<AllocFailed<T>> for LexFault {
    ghost use Rattle.std.specs.Prelude.{◌≡◌};
    ghost use Rattle.aadl_lex.specs.declared.fault.LexFault.TheVariants.{Memory};

    ghost from_gives = { λ _ e. e ≡ Memory };

    fn from(_error: AllocFailed<T>) -> LexFault {
        LexFault::Memory
    }
}
