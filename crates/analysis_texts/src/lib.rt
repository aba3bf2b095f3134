//! The texts of the commands that look at a design round by round.
#![tactic(auto)]

mod faults_by_round;
mod plants;
mod processors;
mod properties;
mod replica_names;
mod replicas;
mod sync;

pub use plants::fuse;
pub use processors::{Budgeted, budget};
pub use properties::{Watched, watch};
pub use replicas::vote;
pub use sync::report;
