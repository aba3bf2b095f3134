//! JSON values as the fields of scenarios require them: numbers in their ranges, texts, lists, objects and
//! values of ports. And the faults of scenarios, each with the name of its position.
#![tactic(auto)]

mod design_names;
mod fault;
pub mod json_values;
pub mod placed_faults;

pub use design_names::DesignNames;
pub use fault::ScenarioFault;
