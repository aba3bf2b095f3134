//! Generated work: rings of components, and schedules of designs, which are lists of timed events
//! within the bounds that finish all rounds.
#![tactic(auto)]

mod event_series;
pub mod laws;
mod node_and_link_series;
mod ring_behaviours;
mod rings;
mod schedules;

pub use rings::ring;
pub use schedules::schedule;
