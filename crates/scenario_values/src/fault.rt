//! Why a scenario is refused.
use pals_base::{NoMemory, Text};
use std::alloc::AllocFailed;
use std::fmt;
use thiserror::Error;

/// The first fault of a scenario. A name is a field, or a field and a name or an index inside it with
/// `/` between each two, as `inputs/goal/2`.
#[derive(Drop, Error)]
pub enum ScenarioFault {
    /// The bytes are not JSON.
    #[error("NotJson")]
    NotJson,
    /// A field that the command needs is missing, or a component is on no processor.
    #[error("Field")]
    Field { name: Text },
    /// The value has another type than the field requires.
    #[error("WrongKind")]
    WrongKind { name: Text },
    /// No field, or nothing of the design, has this name.
    #[error("Unknown")]
    Unknown { name: Text },
    /// A number or a count is out of its range, or is at a position where it may not be.
    #[error("OutOfRange")]
    OutOfRange { name: Text },
    /// The run would leave `cells` values, which is more than 1,000,000.
    #[error("TooBig")]
    TooBig { cells: u64 },
    /// There was not enough memory.
    #[error("Memory")]
    Memory,
}

impl fmt::Debug for ScenarioFault {
    fn fmt<W: fmt::Write>(&self, f: &mut fmt::Formatter<W>) -> fmt::Result {
        write!(f, "{self}")
    }
}

impl From<NoMemory> for ScenarioFault {
    ghost use Rattle.std.specs.Prelude.{◌≡◌};
    ghost use Rattle.scenario_values.specs.declared.fault.ScenarioFault.TheVariants.{Memory};

    ghost from_gives = { λ _ e. e ≡ Memory };

    fn from(_error: NoMemory) -> ScenarioFault {
        ScenarioFault::Memory
    }
}

impl<T: Drop> From<AllocFailed<T>> for ScenarioFault {
    ghost use Rattle.std.specs.Prelude.{◌≡◌};
    ghost use Rattle.scenario_values.specs.declared.fault.ScenarioFault.TheVariants.{Memory};

    ghost from_gives = { λ _ e. e ≡ Memory };

    fn from(_error: AllocFailed<T>) -> ScenarioFault {
        ScenarioFault::Memory
    }
}
