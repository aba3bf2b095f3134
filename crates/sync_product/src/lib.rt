//! The multirate synchronous composition of a design, round by round.
#![tactic(auto)]

pub mod component_stage;
pub mod laws;
mod messages;
pub mod opening;
mod product;
pub mod renumbering_laws;
mod round;
pub mod round_inputs;
mod taps;
pub mod tuple_columns;
pub mod wiring;

pub use product::Product;
