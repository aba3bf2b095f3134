//! The checks of the names in a package: the shapes of property values, the use of names in behaviours,
//! duplicate declarations, references, and the order of all findings.
//!
//! The main result is [`first_name_fault`], which returns the first fault of the names in the order of the text,
//! or `None` if there is none. The crate does not check recursion, connection chains, or the types of ports,
//! variables and expressions.
#![tactic(auto)]

pub mod actions_and_expressions;
mod annexes;
pub mod behaviour_name_tables;
pub mod behaviour_scope;
pub mod behaviour_sections;
mod behaviours;
mod connections;
mod declarations;
mod duplicates_beside_ports;
pub mod duplicates_by_namespace;
mod first_fault;
mod implementations;
pub mod namespace_entries;
pub mod port_name_tables;
pub mod properties;
pub mod property_value_shapes;
mod spelled_whole_numbers;
mod subcomponents;
pub mod thread_category;
pub mod transitions;
mod types;

pub use behaviour_name_tables::{state_names, variable_roles};
pub use behaviour_scope::BehaviourScope;
pub use duplicates_by_namespace::{check_duplicates, first_behaviour};
pub use first_fault::first_name_fault;
pub use port_name_tables::{AllPortNames, PortNames, all_port_names, names_at};
pub use properties::check_properties;
pub use transitions::check_transitions;
