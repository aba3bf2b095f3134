//! Events of worlds, and why a world refuses one.
use pals_base::{ItemList, LinkNo, Nanos, NoMemory, NodeNo};

/// An event of a world. Times and readings are in nanoseconds.
#[derive(Drop)]
pub enum Event {
    /// Time passes, to this time and to this reading of each component's clock.
    Pass {
        time: Nanos,
        readings: ItemList<Nanos>,
    },
    /// A node starts its next round, with the job of its first step.
    Start(NodeNo),
    /// A node starts its next step of the round.
    Step(NodeNo),
    /// A node finishes the step that is under way.
    Finish(NodeNo),
    /// A node sends the messages of its round.
    Send(NodeNo),
    /// A link's message of this round arrives.
    Arrive(LinkNo, u32),
    /// A copy of a link's message of this round is lost.
    Drop(LinkNo, u32),
    /// A link's message of this round is under way once more.
    Repeat(LinkNo, u32),
}

/// What a fault of an event is about: a node, or a link's message of a round.
#[derive(Clone, Copy)]
pub enum EventSubject {
    Node(NodeNo),
    Message(LinkNo, u32),
}

/// Why a world refuses an event. All times are in nanoseconds.
#[derive(Clone, Copy)]
pub enum EventFault {
    /// A node or a link is not the design's, or there is not one reading for each component.
    BadName,
    /// A drop or a repeat, which a world within bounds has not.
    LossOrRepeat,
    /// The new time is less than the time.
    TimeBack {
        time: Nanos,
    },
    /// This new reading is less than the one before.
    ClockBack {
        node: NodeNo,
        reading: Nanos,
    },
    /// This new reading is as far from the time as the skew, or farther.
    ClockApart {
        node: NodeNo,
        reading: Nanos,
    },
    /// The new time is past the last time that a node or a message allows.
    PastDeadline {
        subject: EventSubject,
        last: Nanos,
    },
    /// The node's phase allows no such event.
    WrongPhase {
        node: NodeNo,
    },
    /// No copy of that round is under way on the link.
    NoSuchMessage {
        link: LinkNo,
        round: u32,
    },
    /// The node's reading is below the alarm, or the release, of the event.
    NotDue {
        node: NodeNo,
        alarm: Nanos,
        reading: Nanos,
    },
    /// A step executed, or a message was in flight, for less than the bounds allow; it may end at the
    /// earliest at this time.
    TooSoon {
        subject: EventSubject,
        earliest: Nanos,
    },
    /// There was not enough memory.
    Memory,
}

impl From<NoMemory> for EventFault {
    ghost use Rattle.std.specs.Prelude.{◌≡◌};
    ghost use Rattle.pals_runs.specs.declared.events_and_faults.EventFault.TheVariants.{Memory};

    ghost from_gives = { λ _ e. e ≡ Memory };

    fn from(_error: NoMemory) -> EventFault {
        EventFault::Memory
    }
}
