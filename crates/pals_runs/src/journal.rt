//! The entries of a journal, one for each event that was not refused, with arrivals, causes and
//! stops.
use pals_base::{LinkNo, Nanos, NodeNo};

/// What became of a message that arrived: it fills its slot; it is not used; or it comes before its
/// target has started the message's round.
#[derive(Clone, Copy, PartialEq)]
pub enum Arrived {
    Kept,
    Ignored,
    Early,
}

/// Why a message was missed: its source had not sent it, it was under way, or it was lost.
#[derive(Clone, Copy, PartialEq)]
pub enum Cause {
    NotSent,
    InTransit,
    Lost,
}

/// Why a run stopped: a round was to start without a link's message of the round before, or a
/// message arrived too early. The round is the message's; the reading is the event's, in
/// nanoseconds, if it has one.
#[derive(Clone, Copy, PartialEq)]
pub enum Stop {
    Missed {
        link: LinkNo,
        round: u32,
        reading: Option<Nanos>,
        cause: Cause,
    },
    Early {
        link: LinkNo,
        round: u32,
        reading: Option<Nanos>,
    },
}

/// An entry of the journal. A reading is in nanoseconds, and none in a loose world.
#[derive(Clone, Copy, PartialEq)]
pub enum JournalEntry {
    Arrive {
        link: LinkNo,
        round: u32,
        reading: Option<Nanos>,
        result: Arrived,
    },
    Start {
        node: NodeNo,
        round: u32,
        reading: Option<Nanos>,
    },
    Step {
        node: NodeNo,
        round: u32,
        step: u32,
        reading: Option<Nanos>,
    },
    Finish {
        node: NodeNo,
        round: u32,
    },
    Send {
        node: NodeNo,
        round: u32,
        reading: Option<Nanos>,
    },
    Drop {
        link: LinkNo,
        round: u32,
    },
    Repeat {
        link: LinkNo,
        round: u32,
    },
    Stopped(Stop),
}
