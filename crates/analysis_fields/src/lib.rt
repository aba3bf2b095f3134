//! The fields of scenarios for monitors, votes, fused plants and round budgets: properties, replicas and their
//! faults, plants with their controllers, and processors.
//!
//! Each public function parses one field of a JSON scenario against a design. It is proved to return the value
//! of the field's definition in `specs/`, or the first fault of the field. The crate does not evaluate the
//! fields.
#![tactic(auto)]

mod formulas;
mod limits;
mod plants;
mod processors;
mod properties;
mod replica_faults;
mod replicas;

pub use plants::read_plants;
pub use processors::{Processor, read_processors};
pub use properties::{Property, read_properties};
pub use replica_faults::{RoundFault, read_faults};
pub use replicas::read_replicas;
