//! The type of scenarios.
use analysis_fields::{Processor, Property, RoundFault};
use pals_base::{ItemList, NodeNo, Text};
use pals_clock::Clocks;
use pals_model::{Delays, Env};
use pals_runs::{Event, Pair};

/// A scenario for a design. For a run it has the number of rounds, the values of the root in ports, the events
/// of a world, the clocks of the nodes, and the delays of messages. For the analyses it has the lines of a
/// trace, the properties of monitors, replicas and their faults, plants with their controllers, and processors.
/// An absent field is empty, or has its default.
#[derive(Drop)]
pub struct Scenario {
    pub rounds: u32,
    pub env: Env,
    pub events: ItemList<Event>,
    pub clocks: Clocks,
    pub delays: Delays,
    pub trace: ItemList<Text>,
    pub properties: ItemList<Property>,
    pub replicas: ItemList<NodeNo>,
    pub faults: ItemList<RoundFault>,
    pub plants: ItemList<Pair>,
    pub processors: ItemList<Processor>,
}
