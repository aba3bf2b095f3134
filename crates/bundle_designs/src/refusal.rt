//! The reason why a bundle has no design.
use std::alloc::AllocError;

/// The reason why a bundle has no design: the output that states it, or an allocation failure.
#[derive(Drop)]
pub enum Refusal {
    /// The bundle has no valid design text: it has no dividing line, or its text has a fault.
    Text(Vec<u8>),
    /// The package has no design below the root: it has a fault, or its instance model has violations.
    Design(Vec<u8>),
    /// Out of memory.
    Memory,
}

impl From<AllocError> for Refusal {
    ghost use Rattle.std.specs.Prelude.{◌≡◌};
    ghost use Rattle.bundle_designs.specs.declared.refusal.Refusal.TheVariants.{Memory};

    ghost from_gives = { λ _ refusal. refusal ≡ Memory };

    fn from(_error: AllocError) -> Refusal {
        Refusal::Memory
    }
}
