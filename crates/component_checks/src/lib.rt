//! The checks of the components of an instance model: their dispatch and periods, the root's period and timing
//! bounds, times above one hour, and the types of ports and variables. The crate also computes the numbers of a
//! design: rates, adaptors and timing bounds.
//!
//! Each check appends the violations of its definition to a list. A missing or rejected number is `None` and
//! causes no further violations. The crate does not check names, behaviours or connection chains.
#![tactic(auto)]

pub mod adaptor_findings;
pub mod adaptor_texts;
pub mod bounds_and_rates;
pub mod chain_properties;
pub mod chain_property_tables;
pub mod component_properties;
pub mod component_property_tables;
pub mod package_properties;
pub mod period_findings;
pub mod property_lookup;
pub mod root_findings;
pub mod thread_findings;
pub mod thread_rates;
pub mod times;
pub mod type_findings;
pub mod unquoted_strings;
pub mod word_values;

pub use adaptor_findings::Carrier;
pub use adaptor_texts::adaptor_named;
pub use bounds_and_rates::{gamma_by, range_of, rate_of, skew_of};
pub use chain_properties::ChainProperties;
pub use package_properties::Properties;
pub use period_findings::{add_bound_findings, add_period_findings};
