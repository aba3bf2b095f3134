//! A timed world: a run of a design with the time and the readings of its clocks. It executes the events
//! that its bounds allow, and reports why it rejects another. Its bus never has a stop.
#![tactic(auto)]

mod event_faults;
mod event_list;
mod events;
mod initial_lists;
mod node_standing;
mod time_passing_faults;
mod world;

pub use event_list::{WorldEnd, run_list};
pub use world::World;
