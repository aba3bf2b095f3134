//! Laws on packages, instance models and designs. An instance model without findings has exactly one design,
//! and this design satisfies the rules of designs. The steps of the proof are laws too: on the names of a
//! package, annexes and behaviours, rates and bounds, threads, and connection chains.
//!
//! Each package has either an instance model with the list of all its violations or a first fault, and not
//! both; each of these is unique.
//!
//! The crate has no executable code: its functions do nothing, and their contracts are the laws.
#![tactic(auto)]

pub mod annex_behaviours;
pub mod chains;
pub mod designs;
pub mod instance_existence;
pub mod instances;
pub mod names;
pub mod packages;
pub mod rates_and_bounds;
pub mod thread_behaviours;
pub mod unique_faults;
