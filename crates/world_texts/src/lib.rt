//! What is written of timed worlds: the rounds and the messages of a list of events within the bounds, or the first
//! event that the bounds do not allow; and one line of a ring that has gone through its schedule.
#![tactic(auto)]

mod ring_result;
mod world_text;

pub use ring_result::tell_ring;
pub use world_text::{WorldReport, tell_world};
