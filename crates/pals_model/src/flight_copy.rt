//! Messages that are under way on a link.
use pals_base::{Nanos, Tuple};

/// A copy of a message in flight on a link: the round that it was sent in, the reading of the target's
/// clock from which on it is due, in nanoseconds, if it was sent at a reading, and its tuple of
/// values.
#[derive(Drop)]
pub struct FlightCopy {
    pub round: u32,
    pub due: Option<Nanos>,
    pub tuple: Tuple,
}
