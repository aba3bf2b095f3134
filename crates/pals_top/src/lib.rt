//! The whole program as one call: words and bytes in, a status and bytes out.
#![tactic(auto)]

mod analysis;
mod answer;
mod audit;
mod budget;
mod bundle_meaning;
mod check;
pub mod command_line;
mod execution;
mod fuse;
mod opening_bus;
mod print;
mod program;
mod refused_scenario;
mod run;
pub mod status;
mod sync;
mod vote;
mod watch;
mod world;
mod world_loose;

pub use command_line::{WordsEnd, read_words};
pub use program::pals;
