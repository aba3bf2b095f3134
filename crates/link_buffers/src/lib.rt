//! The buffers in which messages wait on their way: the slot of an in port, the flight of a link,
//! and a node's queue of the messages that become due.
#![tactic(auto)]

mod binary_search;
mod copies_by_round;
mod copy_nodes;
mod copy_order;
pub mod due_queue;
pub mod flight;
pub mod laws;
mod ring_insertion_and_removal;
pub mod slot;

pub use due_queue::{DueEntry, DueQueue};
pub use flight::Flight;
pub use pals_model::FlightCopy;
pub use slot::Slot;
