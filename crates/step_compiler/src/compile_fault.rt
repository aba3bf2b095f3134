//! Why a behaviour is not compiled.

use std::alloc::AllocError;
use thiserror::Error;

/// Why a behaviour is not compiled.
#[derive(Clone, Copy, Debug, Error)]
pub enum CompileFault {
    /// Its code has more instructions than a component may have. The length is capped at u64's
    /// maximum.
    #[error("CodeTooLong")]
    CodeTooLong { length: u64 },
    /// There was not enough memory, for code that is not too long.
    #[error("Memory")]
    Memory,
}

impl From<AllocError> for CompileFault {
    ghost use Rattle.std.specs.Prelude.{◌≡◌};
    ghost use Rattle.step_compiler.specs.declared.compile_fault.CompileFault.TheVariants.{Memory};

    ghost from_gives = { λ _ e. e ≡ Memory };

    fn from(_error: AllocError) -> CompileFault {
        CompileFault::Memory
    }
}
