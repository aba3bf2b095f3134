//! The instance model of a package below a root: its threads with their paths, and the connection chains
//! between their ports; or the first fault of the package. The faults include exceeded limits on threads, paths
//! and links.
//!
//! [`flatten`] is proved to return the instance model of the definition, or the first fault in the order of the
//! rules; no package has both. The crate does not check types, properties or behaviours.
#![tactic(auto)]

mod behaviour_sizes;
pub mod chain;
mod chain_search;
mod chain_search_context;
pub mod checked_package;
pub mod fault_laws;
mod flattening;
pub mod instance;
pub mod limits;
mod longest_path;
mod numbered_ends;
mod port_numbers;
mod root;
mod thread_limits;

pub use aadl_names::PackageFault;
pub use aadl_uses::{SubAt, ThreadAt};
pub use chain::{Chain, ChainEnd, ConnectionAt};
pub use checked_package::{Checked, check_package};
pub use flattening::flatten;
pub use instance::Instance;
pub use limits::Limit;
pub use longest_path::has_too_long_path;
pub use thread_limits::{ThreadPart, has_too_many};
