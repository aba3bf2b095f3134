//! The configuration of a node: its part of the design.
use pals_base::{Adaptor, Behaviour, ItemList, Nanos, NodeNo};

/// What an in port brings to the steps of a round.
#[derive(Clone, Copy)]
pub enum Input {
    /// Nothing: no link and no feed goes to the port.
    Nothing,
    /// The value of a root in port, by its place among all of them.
    Root {
        root: usize,
        adaptor: Option<Adaptor>,
    },
    /// The message of a source that makes `rate` steps in a round.
    Link {
        rate: u32,
        adaptor: Option<Adaptor>,
    },
}

/// The configuration of a node, its part of the design: its number, the behaviour of its component, its
/// steps in a round, the source of each in port, the out port of each link from it and of each tap of
/// it, the period of the round and of its steps, how many of its steps are sent, and how long after
/// its alarm. All times are nanoseconds.
#[derive(Drop)]
pub struct Plan {
    pub node: NodeNo,
    pub behaviour: Behaviour,
    pub rate: u32,
    pub inputs: ItemList<Input>,
    pub out_links: ItemList<u32>,
    pub taps: ItemList<u32>,
    pub period: Nanos,
    pub step_period: Nanos,
    pub sent_steps: u32,
    pub release_offset: Nanos,
}
