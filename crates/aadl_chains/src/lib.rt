//! Connection chains: the sequences of connections between threads, and between threads and the root.
//!
//! The crate finds the connections that are on no chain, the chain that ends at a given port, and whether there
//! are more links than a design may have. Each result is proved equal to its definition on the flattened
//! design, but is computed on the declarations, without flattening.
//!
//! The crate assumes a package whose names have no fault and whose implementations do not contain themselves.
//! It does not check types, rates or adaptors.
#![tactic(auto)]

pub mod chain_connections;
pub mod chain_tracing;
pub mod connection_faults;
pub mod entered_port_counts;
pub mod link_limit;
pub mod port_set;
pub mod ports_joined_inside;
pub mod ports_joined_outside;

pub use chain_connections::JoinedPorts;
pub use chain_tracing::{ChainRoute, ChainStart, trace_back, trace_tap};
pub use connection_faults::first_end_fault;
pub use link_limit::has_too_many_links;
pub use port_set::{PortAt, Ports};
pub use ports_joined_inside::JoinedInside;
pub use ports_joined_outside::{JoinedOutside, PortSearch};
