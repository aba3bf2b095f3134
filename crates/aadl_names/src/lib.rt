//! The names of a package: the declarations that its references and the ends of its connections name, and the first
//! wrong name so far. Laws: places rise along a tree, and the comparisons find the first fault of all.
#![tactic(auto)]

pub mod declarations_by_number;
pub mod declared_name;
pub mod duplicate_names;
pub mod earliest_by_name;
pub mod fault;
pub mod fault_finder;
pub mod first_fault_laws;
mod folded_name;
pub mod name_comparison;
pub mod name_roles;
pub mod name_table;
pub mod numbered_place;
pub mod numbered_port;
pub mod package_names;
pub mod place_laws;
pub mod qualified_names;
pub mod recognised_properties;
pub mod time_units;
pub mod type_ports;

pub use declared_name::SpelledName;
pub use fault::PackageFault;
pub use fault_finder::FaultFinder;
pub use name_roles::{Role, Usage};
pub use name_table::NameTable;
pub use numbered_place::NumberedPlace;
pub use numbered_port::NumberedPort;
pub use package_names::Names;
pub use recognised_properties::{PropertyHolder, PropertyName};
