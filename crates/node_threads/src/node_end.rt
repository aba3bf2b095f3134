//! How the parts of a run's nodes end.
use pals_base::Nanos;

/// How a node's part in a run ended.
#[derive(Clone, Copy)]
pub enum NodeEnd {
    /// It has done all its rounds.
    Finished,
    /// There is a stop.
    Stopped,
    /// Its clock's list holds no reading for this target, in nanoseconds, which is its next one.
    ClockEnded { target: Nanos },
    /// Another node found no memory.
    Closed,
    /// It found no memory.
    Memory,
}

/// The record of a node, apart from the bus.
#[derive(Clone, Copy)]
pub enum NodeNote {
    /// Nothing.
    Open,
    /// Its clock's list holds no reading for this target, in nanoseconds, which is its next one.
    ClockEnded { target: Nanos },
    /// It found no memory.
    Memory,
}
