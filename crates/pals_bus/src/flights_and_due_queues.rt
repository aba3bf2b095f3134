//! Messages that enter and leave flight, the queues of the messages that become due, and
//! room for them.
ghost use Rattle.std.specs.Prelude.{◌≡◌, ◌+◌, ◌<◌, ◌≤◌, length, filter, All, OnOk, IfSome, option_map, slice_set};
ghost use Rattle.std.specs.Arc.{arc_value};
ghost use Rattle.pals_base.specs.declared.limits.TheConstants.{HOUR, READING};
ghost use Rattle.pals_model.specs.Delays.{AreDelays};
ghost use Rattle.pals_model.specs.Flights.{oldest};
ghost use Rattle.pals_model.specs.DesignRules.{IsDesign};
ghost use Rattle.pals_bus.specs.proof.BusInvariant.{IsBusInvariant, copies_in};
ghost use Rattle.pals_bus.specs.proof.DueQueues.{AreQueues, AreQueuesAmid, HasQueueRoomOn, NoLessQueueRoom, entries_in};
ghost use Rattle.pals_bus.specs.proof.DueQueues.{with_due, without_due};
ghost use Rattle.pals_bus.specs.proof.RoundMessages.{is_from, HasRoomFor, HasRoomOn, NoLessRoom, with_copy};
ghost use Rattle.pals_bus.specs.proof.FlightUpdates.{IsRoundSent, flight_on, target_of, queue_to, queues_with};
ghost use Rattle.pals_bus.specs.proof.FlightUpdates.{copies_without};
ghost use Rattle.pals_bus.specs.proof.LinksFromNodes.{AreOutgoing};

use crate::bus_fields::BusFields;
use link_buffers::{DueEntry, DueQueue, Flight};
use pals_base::limits::PORTS;
use pals_base::{ItemList, LinkNo, Nanos, NoMemory, NodeNo, Tuple};
use pals_model::{FlightCopy, Link};

/// Makes room on each of these links for one more message.
pub fn reserve_links(flights: &mut ItemList<Flight>, numbers: &[LinkNo]) -> Result<(), NoMemory>
    requires { All (λ link. link.0 < length flights.old) numbers.now }
    ensures copies { copies_in flights.new ≡ copies_in flights.old }
    ensures count { length flights.new ≡ length flights.old }
    ensures room { OnOk result (HasRoomOn numbers.now flights.new) }
    ensures others { NoLessRoom flights.old flights.new }
{
    for link in numbers {
        flights[link.0 as usize].reserve(1)?;
    }
    Ok(())
}

/// Makes room in the queue of the target of each of these links, for a message on each of its in
/// ports.
pub fn reserve_queues(
    queues: &mut ItemList<DueQueue>,
    links: &[Link],
    numbers: &[LinkNo],
) -> Result<(), NoMemory>
    requires numbers { All (λ link. link.0 < length links.now) numbers.now }
    requires targets { All (λ link. link.target.0 < length queues.old) links.now }
    ensures entries { entries_in queues.new ≡ entries_in queues.old }
    ensures room { OnOk result (HasQueueRoomOn numbers.now links.now queues.new) }
    ensures others { NoLessQueueRoom queues.old queues.new }
{
    for link in numbers {
        let target = links[link.0 as usize].target;
        queues[target.0 as usize].reserve(PORTS as u32)?;
    }
    Ok(())
}

impl BusFields {
    /// Puts the messages of a node's round into flight, one on each link from it, in order. They
    /// become due after the link's delay, if the round is sent at a reading. Does not allocate.
    pub fn send_messages(
        &mut self,
        node: NodeNo,
        round: u32,
        reading: Option<Nanos>,
        messages: ItemList<Tuple>,
    )
        requires design { IsDesign (arc_value self.old.design) }
        requires count { length self.old.flights ≡ length (arc_value self.old.design).links }
        requires nodes { length self.old.nodes ≡ length (arc_value self.old.design).components }
        requires node { node.0 < length (arc_value self.old.design).components }
        requires outgoing { AreOutgoing (length (arc_value self.old.design).components)
            (arc_value self.old.design).links self.old.outgoing }
        requires delays { AreDelays (length (arc_value self.old.design).links) self.old.delays }
        requires reading { IfSome reading (λ at. at ≤ READING) }
        requires room { HasRoomFor node.0 (length (arc_value self.old.design).links) (arc_value self.old.design).links
            self.old.flights }
        requires queues { AreQueuesAmid node.0 0 (arc_value self.old.design).links self.old.nodes self.old.flights
            self.old.queues }
        requires messages { length messages ≡ length (filter (is_from node.0) (arc_value self.old.design).links) }
        ensures sent { IsRoundSent self.old node.0 round reading messages self.new.flights }
        ensures queues { AreQueues (arc_value self.old.design).links self.old.nodes self.new.flights self.new.queues }
        ensures others { self.new ≡ record self.old { flights = self.new.flights; queues = self.new.queues } }
    {
        let mut messages = messages.into_vec().into_iter();
        for at in 0..self.outgoing.links_from(node).len() {
            let link = self.outgoing.links_from(node)[at];
            match messages.next() {
                None => unreachable!(),
                Some(tuple) => {
                    let due = due_at(reading, self.delays.delay(link, round));
                    self.add_message(link, FlightCopy { round, due, tuple });
                }
            }
        }
    }

    /// Removes the oldest copy of a link's message of a round from its flight, and from the queue of
    /// its target; does nothing if there is none. Does not allocate.
    pub fn take_message(&mut self, link: LinkNo, round: u32) -> Option<Tuple>
        requires keeps { IsBusInvariant self.old }
        requires link { link.0 < length (arc_value self.old.design).links }
        ensures taken { result ≡ option_map (λ copy. copy.tuple) (oldest round (flight_on self.old link).copies) }
        ensures copies { copies_in self.new.flights ≡ copies_without self.old link round }
        ensures queues { AreQueues (arc_value self.old.design).links self.old.nodes self.new.flights self.new.queues }
        ensures room { NoLessRoom self.old.flights self.new.flights }
        ensures others { self.new ≡ record self.old { flights = self.new.flights; queues = self.new.queues } }
    {
        let at = link.0 as usize;
        let due = self.flights[at].flight_oldest(round)?.due;
        let target = self.design.links()[at].target;
        remove_due(&mut self.queues[target.0 as usize], due, link, round);
        self.flights[at].flight_take(round)
    }

    /// Puts one more copy of a link's message into flight, and into the queue of its target. Does not
    /// allocate.
    pub fn add_message(&mut self, link: LinkNo, copy: FlightCopy)
        requires link { link.0 < length self.old.flights }
        requires number { link.0 < length (arc_value self.old.design).links }
        requires target { target_of self.old link < length self.old.queues }
        requires room { 1 ≤ (flight_on self.old link).spare }
        requires queue { 1 ≤ (queue_to self.old link).spare }
        ensures flights { self.new.flights ≡ slice_set self.old.flights link.0
            (with_copy (flight_on self.old link) copy) }
        ensures queues { self.new.queues ≡ queues_with self.old link copy }
        ensures others { self.new ≡ record self.old { flights = self.new.flights; queues = self.new.queues } }
    {
        let target = self.design.links()[link.0 as usize].target;
        let FlightCopy { round, due, tuple } = copy;
        self.flights[link.0 as usize].flight_add(round, due, tuple);
        add_due(&mut self.queues[target.0 as usize], due, link, round);
    }
}

/// Adds a message to the queue of its target, if it has a due reading. Does not allocate.
pub fn add_due(queue: &mut DueQueue, due: Option<Nanos>, link: LinkNo, round: u32)
    requires { 1 ≤ queue.old.spare }
    ensures { queue.new ≡ with_due queue.old due link round }
{
    if let Some(due) = due {
        queue.add(DueEntry { due, link, round });
    }
}

// Takes a message out of the queue of its target, where it has a due reading.
fn remove_due(queue: &mut DueQueue, due: Option<Nanos>, link: LinkNo, round: u32)
    ensures entries { queue.new.entries ≡ without_due queue.old.entries due link round }
    ensures spare { queue.old.spare ≤ queue.new.spare }
{
    if let Some(due) = due {
        queue.remove(DueEntry { due, link, round });
    }
}

// When a message is due that is sent at a reading, if it is.
fn due_at(reading: Option<Nanos>, delay: Nanos) -> Option<Nanos>
    requires reading { IfSome reading (λ at. at ≤ READING) }
    requires delay { delay ≤ HOUR }
    ensures { result ≡ option_map (λ sent. sent + delay) reading }
{
    match reading {
        None => None,
        Some(sent) => Some(sent + delay),
    }
}
