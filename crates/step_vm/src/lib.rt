//! The machine that runs step code.
#![tactic(auto)]

mod instruction_effects;
mod operators;
mod room;
mod stack;
mod steps;

pub use room::Room;
pub use steps::run;
