//! From why a call of the bus is refused to the fault of a loose world.
ghost use Rattle.std.specs.Prelude.{◌≡◌};
ghost use Rattle.pals_bus.specs.proof.LooseStopsAndFaults.{start_fault, step_fault, finish_fault, send_fault};
ghost use Rattle.pals_bus.specs.proof.LooseStopsAndFaults.{link_fault};

use crate::bus_error::{
    BusError, BusFinishEnd, BusSendEnd, BusStartEnd, BusStepEnd, LinkEnd, MessageError,
};
use pals_base::{LinkNo, NodeNo};
use pals_node::{StartEnd, StepEnd};
use pals_runs::Stop;

/// Why a loose world stops at an event.
#[derive(Clone, Copy)]
pub enum LooseFault {
    /// The run has a stop: it had the stop before, or the event gives it.
    Stopped(Stop),
    /// The node's phase allows no such event.
    WrongPhase { node: NodeNo },
    /// No copy of that round is in flight on the link.
    NoSuchMessage { link: LinkNo, round: u32 },
    /// The event is a passing of time, and a loose world has none.
    Timed,
    /// There was not enough memory.
    Memory,
}

/// The fault of a start from which no job comes.
pub fn start_fault(end: BusStartEnd, node: NodeNo) -> LooseFault
    ensures { result ≡ start_fault end node }
{
    match end {
        BusError::Stopped(stop) => LooseFault::Stopped(stop),
        BusError::Refused(StartEnd::Memory) => LooseFault::Memory,
        BusError::Refused(_) => LooseFault::WrongPhase { node },
    }
}

/// The fault of a step from which no job comes.
pub fn step_fault(end: BusStepEnd, node: NodeNo) -> LooseFault
    ensures { result ≡ step_fault end node }
{
    match end {
        BusError::Stopped(stop) => LooseFault::Stopped(stop),
        BusError::Refused(StepEnd::Memory) => LooseFault::Memory,
        BusError::Refused(_) => LooseFault::WrongPhase { node },
    }
}

/// The fault of a finish by which nothing is finished.
pub fn finish_fault(end: BusFinishEnd, node: NodeNo) -> LooseFault
    ensures { result ≡ finish_fault end node }
{
    match end {
        BusError::Stopped(stop) => LooseFault::Stopped(stop),
        BusError::Refused(_) => LooseFault::WrongPhase { node },
    }
}

/// The fault of a send by which nothing is sent.
pub fn send_fault(end: BusSendEnd, node: NodeNo) -> LooseFault
    ensures { result ≡ send_fault end node }
{
    match end {
        BusError::Stopped(stop) => LooseFault::Stopped(stop),
        BusError::Refused(_) => LooseFault::WrongPhase { node },
    }
}

/// The fault of an event of a message that does not happen.
pub fn link_fault(end: LinkEnd, link: LinkNo, round: u32) -> LooseFault
    ensures { result ≡ link_fault end link round }
{
    match end {
        BusError::Stopped(stop) => LooseFault::Stopped(stop),
        BusError::Refused(MessageError::NoSuchMessage) => LooseFault::NoSuchMessage { link, round },
        BusError::Refused(MessageError::Memory) => LooseFault::Memory,
    }
}
