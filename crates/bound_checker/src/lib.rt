//! The period bound: which periods leave each message time to arrive.
//!
//! The formulas are definitions of `pals_base`. The functions here compute the minimum period and the least
//! multiple. The laws state the consequences of the bound: in each round, every message arrives after all nodes
//! start the round and before any node starts the next one. All times are nanoseconds. No function allocates.
//! The crate does not check that bounds or rates are within their limits; its preconditions require it.
#![tactic(auto)]

mod bound;
mod common_multiple;
pub mod laws;
mod least_multiples;

pub use bound::{backoff, least_period, meets};
pub use least_multiples::least_multiple;
