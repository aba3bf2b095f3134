//! The listing of a design's step code: everything that its nodes need to run, as a text.
#![tactic(auto)]

mod component;
mod instr;
pub mod laws;
mod listing;
mod operand_names;
mod period_and_bounds;

pub use listing::add_listing;
