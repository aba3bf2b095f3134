//! The violations of an instance model: of its threads and their behaviours, its links, feeds and taps, and the
//! declarations in use; and the names of properties without meaning.
//!
//! The main result is [`violations`]: the list of all violations, sorted by position and then by rule. It is
//! proved equal to its definition. The crate also resolves the behaviours of threads. It builds neither the
//! instance model nor the design.
#![tactic(auto)]

pub mod all_violations;
pub mod carriers;
pub mod chain_ends;
pub mod chain_findings;
pub mod connection_findings;
pub mod declaration_findings;
pub mod declared_ports;
pub mod declared_variables;
pub mod distinct_spellings;
pub mod ignored_declaration_properties;
pub mod ignored_list_properties;
pub mod ignored_package_properties;
pub mod port_or_variable;
pub mod ports_variables_and_scope;
pub mod sorted_findings;
pub mod thread_behaviour;
pub mod used_declarations;

pub use all_violations::violations;
pub use ignored_package_properties::ignored_names;
pub use thread_behaviour::resolve_implementation;
