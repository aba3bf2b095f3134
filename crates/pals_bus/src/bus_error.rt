//! Why a bus stops at an event. In a run with a stop, every event is refused for that stop.
use pals_base::NoMemory;
use pals_node::{FinishEnd, SendEnd, StartEnd, StepEnd};
use pals_runs::Stop;

/// Why a bus stops at an event.
#[derive(Clone, Copy, PartialEq)]
pub enum BusError<E> {
    /// The run has a stop: it had the stop before, or the event gives it.
    Stopped(Stop),
    /// The run has no stop, and the event is refused for this reason.
    Refused(E),
}

/// Why a start gives no job. A message that the start misses stops the run.
pub type BusStartEnd = BusError<StartEnd>;

/// Why a step gives no job.
pub type BusStepEnd = BusError<StepEnd>;

/// Why nothing is finished.
pub type BusFinishEnd = BusError<FinishEnd>;

/// Why nothing is sent.
pub type BusSendEnd = BusError<SendEnd>;

/// Why nothing happens to a message.
pub type LinkEnd = BusError<MessageError>;

/// Why not all due messages have arrived. A message that arrived too early stops the run.
pub type DueEnd = BusError<NoMemory>;

/// Why nothing happens to a message in a run without a stop.
#[derive(Clone, Copy)]
pub enum MessageError {
    /// No copy of that round is in flight on the link.
    NoSuchMessage,
    /// There was not enough memory.
    Memory,
}

impl From<NoMemory> for MessageError {
    ghost use Rattle.std.specs.Prelude.{◌≡◌};
    ghost use Rattle.pals_bus.specs.declared.bus_error.MessageError.TheVariants.{Memory};

    ghost from_gives = { λ _ e. e ≡ Memory };

    fn from(_error: NoMemory) -> MessageError {
        MessageError::Memory
    }
}

impl<E: From<NoMemory>> From<NoMemory> for BusError<E> {
    ghost use Rattle.pals_bus.specs.proof.RefusalCauses.{IsRefusedBy};

    ghost from_gives = { λ error fault. IsRefusedBy (E.from_gives error) fault };

    fn from(error: NoMemory) -> BusError<E> {
        BusError::Refused(E::from(error))
    }
}
