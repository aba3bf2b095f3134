//! The bus of a run: all nodes, the messages in flight on all links, the messages that become due to each node, and the
//! journal. Each event is a step of the bus machine (`bus_machine`), which the same call records in the journal, so the
//! journal replays to the bus, and the bus agrees with the composition.
#![tactic(auto)]

mod all_due_arrivals;
mod arrival;
mod bus;
mod bus_error;
mod bus_fields;
mod events_of_messages;
mod events_of_nodes;
mod flights_and_due_queues;
mod loose_faults;
mod loose_world_events;
mod meeting;
mod missed_messages;
mod node_list;
mod opening;
mod outgoing_links;
mod run_parameters;
mod target_list;

pub use bus::Bus;
pub use bus_error::{
    BusError, BusFinishEnd, BusSendEnd, BusStartEnd, BusStepEnd, DueEnd, LinkEnd, MessageError,
};
pub use bus_fields::BusFields;
pub use loose_faults::LooseFault;
pub use loose_world_events::apply_loose;
pub use meeting::Meet;
pub use node_list::NodeList;
pub use outgoing_links::Outgoing;
pub use target_list::TargetList;
