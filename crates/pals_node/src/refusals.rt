//! Why a node refuses a start, a step, a finish or a send.
use pals_base::{Nanos, NoMemory};

/// Why a start gives no job. The alarm is in nanoseconds, and the port is an in port.
#[derive(Clone, Copy, PartialEq, Debug)]
pub enum StartEnd {
    /// The reading is below the round's alarm.
    NotYet { alarm: Nanos },
    /// The message of the link into this port is not there.
    Missed { port: u32 },
    /// A round is in hand.
    Busy,
    /// All rounds are done.
    Over,
    /// There was not enough memory.
    Memory,
}

/// Why a step gives no job. The alarm is in nanoseconds.
#[derive(Clone, Copy, PartialEq, Debug)]
pub enum StepEnd {
    /// The reading is below the step's alarm.
    NotYet { alarm: Nanos },
    /// The node is not between two steps.
    NotBetween,
    /// There was not enough memory.
    Memory,
}

/// Why nothing is finished.
#[derive(Clone, Copy, PartialEq, Debug)]
pub enum FinishEnd {
    /// No job is out.
    NotRunning,
}

/// Why nothing is sent. The release is in nanoseconds.
#[derive(Clone, Copy, PartialEq, Debug)]
pub enum SendEnd {
    /// The reading is below the round's release.
    NotYet { release: Nanos },
    /// No round is to be sent, or too few of its steps are finished.
    NotFinished,
}

impl From<NoMemory> for StartEnd {
    ghost use Rattle.std.specs.Prelude.{◌≡◌};
    ghost use Rattle.pals_node.specs.declared.refusals.StartEnd.TheVariants.{Memory};

    ghost from_gives = { λ _ e. e ≡ Memory };

    fn from(_error: NoMemory) -> StartEnd {
        StartEnd::Memory
    }
}

impl From<NoMemory> for StepEnd {
    ghost use Rattle.std.specs.Prelude.{◌≡◌};
    ghost use Rattle.pals_node.specs.declared.refusals.StepEnd.TheVariants.{Memory};

    ghost from_gives = { λ _ e. e ≡ Memory };

    fn from(_error: NoMemory) -> StepEnd {
        StepEnd::Memory
    }
}
