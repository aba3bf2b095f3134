//! Laws of scenarios: bytes mean one scenario for a design and a command, or have a first fault; and the invariants
//! of the fields of a scenario that was read.
#![tactic(auto)]

pub mod event_and_trace_laws;
pub mod plant_laws;
pub mod scenario_meaning;
pub mod scenario_suitability;
