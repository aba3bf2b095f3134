//! The faults of parts that are not a code: the violated rule of the verifier, too many instructions, or memory that
//! ran out.

use std::alloc::AllocError;
use thiserror::Error;

/// The first fault of parts, each `at` a place of an instruction, or of an entry if the entry is
/// bad.
#[derive(Clone, Copy, Debug, PartialEq, Error)]
pub enum CodeFault {
    /// A jump to a missing place, or into or out of the body of a loop; or an entry at a missing place, or in
    /// a body; or a last instruction that may fall through.
    #[error("BadJump")]
    BadJump { at: usize },
    /// An instruction finds fewer operands than it takes.
    #[error("Underflow")]
    Underflow { at: usize },
    /// An instruction leads to a place to which another height of the stack was given.
    #[error("HeightsDiffer")]
    HeightsDiffer { at: usize },
    /// A slot, a port or a state that is not there, or the slot of a loop round the loop.
    #[error("BadSlot")]
    BadSlot { at: usize },
    /// There are more instructions than the limit.
    #[error("TooLong")]
    TooLong { length: u64 },
    /// A jump to a place that is not greater, or an incomplete part of a loop.
    #[error("BackJump")]
    BackJump { at: usize },
    /// There was not enough memory, for instructions that are not too many.
    #[error("Memory")]
    Memory,
}

impl From<AllocError> for CodeFault {
    ghost use Rattle.std.specs.Prelude.{◌≡◌};
    ghost use Rattle.step_code.specs.declared.fault.CodeFault.TheVariants.{Memory};

    ghost from_gives = { λ _ e. e ≡ Memory };

    fn from(_error: AllocError) -> CodeFault {
        CodeFault::Memory
    }
}
