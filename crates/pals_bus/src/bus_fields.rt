//! The fields of a bus.
ghost use Rattle.std.specs.Prelude.{◌≡◌, ◌+◌, ◌^◌, ◌<◌, ◌≤◌, length, sum_by, OnOk, slice_index_or, vec_capacity};
ghost use Rattle.std.specs.Arc.{arc_value};
ghost use Rattle.pals_base.specs.declared.limits.TheConstants.{PORTS};
ghost use Rattle.pals_model.specs.ComponentInputs.{values_at};
ghost use Rattle.bus_machine.specs.Nodes.{round_of};
ghost use Rattle.bus_machine.specs.BusStates.{node_at};
ghost use Rattle.bus_machine.specs.Plans.{link_at};
ghost use Rattle.pals_bus.specs.proof.OutOfRangeDefaults.{no_flight, no_queue};
ghost use Rattle.pals_bus.specs.proof.BusInvariant.{IsBusInvariant, owed, copies_in, state_of};
ghost use Rattle.pals_bus.specs.proof.DueQueues.{HasQueueRoomFor};
ghost use Rattle.pals_bus.specs.proof.RoundMessages.{HasRoomFor};

use crate::flights_and_due_queues::{reserve_links, reserve_queues};
use crate::node_list::NodeList;
use crate::outgoing_links::Outgoing;
use link_buffers::{DueQueue, Flight};
use pals_base::limits::PORTS;
use pals_base::{ItemList, LinkNo, NoMemory, NodeNo, PortValue};
use pals_model::{Delays, Design, Env};
use pals_runs::{JournalEntry, Stop};
use std::alloc::Global;
use std::sync::Arc;

/// What a bus is of, the links from each node, its nodes and flights, the queue of each node's messages
/// that become due, its journal, and room for the values of a round.
pub struct BusFields {
    pub alloc: Global,
    pub design: Arc<Design>,
    pub outgoing: Outgoing,
    pub env: Env,
    pub rounds: u32,
    pub delays: Delays,
    pub meeting: bool,
    pub closed: bool,
    pub nodes: NodeList,
    pub flights: ItemList<Flight>,
    pub queues: ItemList<DueQueue>,
    pub stop: Option<Stop>,
    pub journal: Vec<JournalEntry>,
    pub values: Vec<PortValue>,
}

// By hand, so that dropping a bus is one call, which the crates above cite.
impl Drop for BusFields {
    fn drop(self) {
        let BusFields {
            alloc: _,
            design: _,
            outgoing: _,
            env: _,
            rounds: _,
            delays: _,
            meeting: _,
            closed: _,
            nodes: _,
            flights: _,
            queues: _,
            stop: _,
            journal: _,
            values: _,
        } = self;
    }
}

impl BusFields {
    /// Makes room in the journal for the entries of one event, and for the later entries of the nodes.
    #[tactic(auto, using(crate::proofs::OwedEntries::all_owed))]
    pub fn reserve_entries(&mut self) -> Result<(), NoMemory>
        requires keeps { IsBusInvariant self.old }
        ensures keeps { IsBusInvariant self.new }
        ensures others { self.new ≡ record self.old { journal = self.new.journal } }
        ensures items { self.new.journal.items ≡ self.old.journal.items }
        ensures room { OnOk result (length self.new.journal.items + sum_by owed self.new.nodes + 4 ≤ vec_capacity
            self.new.journal) }
    {
        let most = 2 * self.nodes.len() + 4;
        self.journal.reserve(most)
    }

    /// Makes room in the journal for `count` arrivals and a stop, and for the entries that the
    /// nodes owe.
    #[tactic(auto, using(crate::proofs::OwedEntries::all_owed))]
    pub fn reserve_arrivals(&mut self, count: usize) -> Result<(), NoMemory>
        requires keeps { IsBusInvariant self.old }
        requires count { count < 2 ^ 63 }
        ensures keeps { IsBusInvariant self.new }
        ensures others { self.new ≡ record self.old { journal = self.new.journal } }
        ensures items { self.new.journal.items ≡ self.old.journal.items }
        ensures room { OnOk result (length self.new.journal.items + sum_by owed
            self.new.nodes + count + 4 ≤ vec_capacity self.new.journal) }
    {
        let most = 2 * self.nodes.len() + 4 + count;
        self.journal.reserve(most)
    }

    /// Makes room for everything that a round of a node needs: its entries, and its messages.
    pub fn reserve_round(&mut self, node: NodeNo) -> Result<(), NoMemory>
        requires keeps { IsBusInvariant self.old }
        requires node { node.0 < length (arc_value self.old.design).components }
        ensures keeps { IsBusInvariant self.new }
        ensures others { self.new ≡ record self.old
            { journal = self.new.journal; flights = self.new.flights; queues = self.new.queues } }
        ensures items { self.new.journal.items ≡ self.old.journal.items }
        ensures copies { copies_in self.new.flights ≡ copies_in self.old.flights }
        ensures entries { OnOk result (length self.new.journal.items + sum_by owed self.new.nodes + 4 ≤ vec_capacity
            self.new.journal) }
        ensures room { OnOk result (HasRoomFor node.0 (length (arc_value self.new.design).links)
            (arc_value self.new.design).links self.new.flights) }
        ensures queues { OnOk result (HasQueueRoomFor node.0 (arc_value self.new.design).links self.new.queues) }
    {
        let links = self.design.links();
        let numbers = self.outgoing.links_from(node);
        reserve_links(&mut self.flights, numbers)?;
        reserve_queues(&mut self.queues, links, numbers)?;
        self.reserve_entries()
    }

    /// Makes room for one more copy of a link's message, in addition to the copies that the current rounds
    /// send, and for its entry.
    pub fn reserve_message(&mut self, link: LinkNo) -> Result<(), NoMemory>
        requires keeps { IsBusInvariant self.old }
        requires link { link.0 < length (arc_value self.old.design).links }
        ensures keeps { IsBusInvariant self.new }
        ensures others { self.new ≡ record self.old
            { journal = self.new.journal; flights = self.new.flights; queues = self.new.queues } }
        ensures items { self.new.journal.items ≡ self.old.journal.items }
        ensures copies { copies_in self.new.flights ≡ copies_in self.old.flights }
        ensures entries { OnOk result (length self.new.journal.items + sum_by owed self.new.nodes + 4 ≤ vec_capacity
            self.new.journal) }
        ensures room { OnOk result (2 ≤ (slice_index_or self.new.flights link.0 no_flight).spare) }
        ensures queue { OnOk result (PORTS + 1 ≤ (slice_index_or self.new.queues
            (link_at (arc_value self.new.design) link.0).target.0 no_queue).spare) }
    {
        let target = self.design.links()[link.0 as usize].target;
        self.flights[link.0 as usize].reserve(2)?;
        self.queues[target.0 as usize].reserve(PORTS as u32 + 1)?;
        self.reserve_entries()
    }

    /// Reads the values of the root in ports in a round. Does not allocate.
    pub fn read_values(&mut self, round: u32)
        requires keeps { IsBusInvariant self.old }
        ensures keeps { IsBusInvariant self.new }
        ensures others { self.new ≡ record self.old { values = self.new.values } }
        ensures values { self.new.values.items ≡ values_at self.old.env round }
    {
        self.env.write_values(round, &mut self.values);
    }

    /// How many rounds a node has started.
    pub fn rounds_started(&self, node: NodeNo) -> u32
        requires keeps { IsBusInvariant self.now }
        requires node { node.0 < length self.now.nodes }
        ensures { result ≡ (node_at (state_of self.now) node.0).count }
    {
        self.nodes[node.0 as usize].count()
    }

    /// The round that a node has in hand.
    pub fn round_in_hand(&self, node: NodeNo) -> u32
        requires keeps { IsBusInvariant self.now }
        requires node { node.0 < length self.now.nodes }
        ensures { result ≡ round_of (node_at (state_of self.now) node.0) }
    {
        self.nodes[node.0 as usize].count().saturating_sub(1)
    }
}
