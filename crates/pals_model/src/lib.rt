//! Designs: components, links, feeds and taps with their periods and bounds; the multirate
//! synchronous composition that a design means; and the text of its rounds.
#![tactic(auto)]

pub mod delays;
pub mod design;
mod design_clones;
mod design_equality;
pub mod environment;
pub mod flight_copy;
pub mod laws;
pub mod outgoing_links;
pub mod part;
pub mod port_sources;
pub mod rates_and_kinds;

pub use delays::Delays;
pub use design::{Component, Design, DesignParts, Feed, Link, Tap};
pub use environment::Env;
pub use flight_copy::FlightCopy;
pub use part::Part;
pub use port_sources::PortSource;
