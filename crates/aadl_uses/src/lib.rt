//! A package whose names are looked up once, and the results of these look-ups. Subcomponents, the types of
//! implementations and the ports that connections join are all numbers: the indices of declarations,
//! subcomponents and features in the text.
//!
//! From these numbers the crate computes the declarations in use below a root, the first implementation that
//! contains itself, the connections by their target, and the threads below a root with their paths. Each result
//! is proved equal to its definition on the tree of the package.
//!
//! The crate does not check names, types or connections, and does not build the instance model.
#![tactic(auto)]

pub mod connections_by_target;
pub mod containment;
pub mod containment_order;
pub mod cycle_suspects;
mod declaration_levels;
mod implementation_types;
pub mod marked_counts;
pub mod package_connections;
mod path_weights;
mod paths_to_marked;
mod paths_to_threads;
mod ports_of_connections;
mod ports_of_ends;
pub mod reached_declarations;
pub mod recursion;
pub mod resolved_package;
mod thread_locations;

pub use connections_by_target::{ConnectionPorts, Connections};
pub use containment::Containment;
pub use containment_order::order;
pub use cycle_suspects::{leads_back, suspects};
pub use marked_counts::counts_below;
pub use package_connections::PackageConnections;
pub use path_weights::{SubcomponentWeights, heaviest_below};
pub use paths_to_marked::{Paths, paths_below};
pub use paths_to_threads::thread_paths;
pub use reached_declarations::reached;
pub use recursion::first_recursive;
pub use resolved_package::Uses;
pub use thread_locations::{SubAt, ThreadAt, standing, thread_at, threads_at};
