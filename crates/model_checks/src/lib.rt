//! From an instance model to its design, or to the list of its violations.
//!
//! [`check`] is proved to return the design of the definition if there are no violations, and otherwise all of
//! them. Each behaviour is resolved once for all threads of its implementation. The crate does not build the
//! instance model.
#![tactic(auto)]

pub mod instance_check;
pub mod instance_design;
mod resolved_behaviours;

pub use instance_check::{CheckFault, check};
