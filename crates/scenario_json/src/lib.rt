//! Scenarios: the second input of a command, next to the design, as one JSON object.
//!
//! [`read_scenario`] checks each number and each name once, for every command, and returns the scenario or its
//! first fault with its location. `scen` of `specs/Scenarios.antt` defines both. The crate does not execute a
//! scenario, and does not check whether an event may occur in a world.
#![tactic(auto)]

mod clocks;
mod events;
mod inputs_and_delays;
mod run_cell_count;
mod scenario;
mod scenario_reader;
mod traces;

pub use analysis_fields::{Processor, Property, RoundFault};
pub use clocks::read_clocks;
pub use events::read_events;
pub use inputs_and_delays::{least_delays, no_inputs, read_delays, read_inputs};
pub use run_cell_count::cells_of;
pub use scenario::Scenario;
pub use scenario_reader::read_scenario;
pub use scenario_values::ScenarioFault;
pub use traces::read_trace;
