//! Clocks that are lists of readings. A clock is at its last pick. For a target it picks the same
//! reading again if it is at least the target, else the first later reading that is. The picks for a
//! list of targets are `pals_base`'s `picks`; the laws that relate the calls to them are in `laws`.
#![tactic(auto)]

pub mod clock;
pub mod laws;

pub use clock::{ClockEnd, Clocks, ListClock};
