//! Why a step does not reach its end.
use pals_base::Trap;
use std::alloc::{AllocError, AllocFailed};

/// What ends a run of actions early.
#[derive(Clone, Copy, PartialEq)]
pub enum EarlyEnd {
    /// A trap of the behaviour itself.
    Trapped(Trap),
    /// There was not enough memory for the number of a loop.
    NoMemory,
}

impl From<Trap> for EarlyEnd {
    ghost use Rattle.std.specs.Prelude.{◌≡◌};
    ghost use Rattle.behaviour_sem.specs.declared.early_end.EarlyEnd.TheVariants.{Trapped};

    ghost from_gives = { λ trap stop. stop ≡ Trapped trap };

    fn from(trap: Trap) -> EarlyEnd {
        EarlyEnd::Trapped(trap)
    }
}
