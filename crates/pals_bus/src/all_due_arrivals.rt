//! All messages that are due to a node.
ghost use Rattle.std.specs.Prelude.{◌≡◌, ◌+◌, ◌*◌, ◌^◌, ◌<◌, ◌≤◌, ◌↔◌, [], None, length, sum_by, IsTrue, IfOk, IfErr};
ghost use Rattle.std.specs.Prelude.{IfNone, OnOk, vec_capacity};
ghost use Rattle.pals_bus.specs.proof.DueMessages.{AreLeft, TakesDue, TakesAllDue, DueEnds, HasDue};
ghost use Rattle.pals_bus.specs.proof.BusInvariant.{IsBusInvariant, owed, value_of};
ghost use Rattle.pals_bus.specs.proof.DueQueues.{AreDueEntries};

use crate::bus::Bus;
use crate::bus_error::{BusError, DueEnd};
use crate::bus_fields::BusFields;
use link_buffers::{DueEntry, DueQueue};
use pals_base::{Nanos, NoMemory, NodeNo};
use pals_runs::Stop;
use std::alloc::Global;

impl Bus {
    /// Delivers all messages to a node that are due at a reading of its clock, in link order and then
    /// in order of rounds, up to the first that arrives too early, which stops the run. If memory runs
    /// out, none has arrived.
    pub fn take_due(&mut self, node: NodeNo, reading: Nanos) -> Result<(), DueEnd>
        requires { node.0 < length self.old.run.design.components }
        ensures ok { OnOk result (TakesAllDue self.old node.0 reading self.new) }
        ensures end { IfErr result (λ end. DueEnds self.old node.0 reading self.new end) }
    {
        let f = &mut self.fields;
        if let Some(stop) = f.stop {
            return Err(BusError::Stopped(stop));
        }
        let due = due_messages(f.alloc, &f.queues[node.0 as usize], reading)?;
        f.reserve_arrivals(due.len())?;
        if let Some(stop) = f.arrive_all(due.as_slice(), node, reading) {
            return Err(BusError::Stopped(stop));
        }
        Ok(())
    }

    /// Whether some message to a node is due at a reading of its clock. Does not allocate.
    pub fn has_due(&self, node: NodeNo, reading: Nanos) -> bool
        requires { node.0 < length self.now.run.design.components }
        ensures { IsTrue result ↔ HasDue self.now node.0 reading }
    {
        self.fields.queues[node.0 as usize].due_count(reading) > 0
    }
}

impl BusFields {
    // Delivers the messages that are due to a node, up to the first that arrives too early. Does not
    // allocate.
    fn arrive_all(&mut self, due: &[DueEntry], node: NodeNo, reading: Nanos) -> Option<Stop>
        requires keeps { IsBusInvariant self.old }
        requires going { self.old.stop ≡ None }
        requires left { AreLeft (value_of self.old) node.0 reading due.now }
        requires room { length self.old.journal.items + sum_by owed self.old.nodes + length due.now + 4 ≤ vec_capacity
            self.old.journal }
        ensures keeps { IsBusInvariant self.new }
        ensures takes { TakesDue node.0 reading (value_of self.old) (value_of self.new) }
        ensures stop { result ≡ self.new.stop }
        ensures none_left { IfNone result (AreLeft (value_of self.new) node.0 reading []) }
    {
        for message in due {
            self.arrive(message.link, message.round, Some(reading));
            if self.stop.is_some() {
                return self.stop;
            }
        }
        None
    }
}

// The messages of a queue that are due at a reading, in link order and then in order of rounds.
fn due_messages(alloc: Global, queue: &DueQueue, reading: Nanos) -> Result<Vec<DueEntry>, NoMemory>
    ensures { IfOk result (λ due. AreDueEntries queue.now reading due.items) }
{
    let mut due = Vec::new(alloc);
    for place in 0..queue.due_count(reading) {
        let Some(entry) = queue.get(place) else {
            unreachable!();
        };
        // Its round is below 2^32, which the order of the numbers rests on.
        let _place = place_in_order(&entry);
        due.push(entry)?;
    }
    due.sort_unstable_by_key(|entry| place_in_order(entry));
    Ok(due)
}

// A number that rises with the link, and for one link with the round.
fn place_in_order(entry: &DueEntry) -> u64
    ensures place { result ≡ entry.now.link.0 * 2 ^ 32 + entry.now.round }
    ensures short { entry.now.round < 2 ^ 32 }
{
    entry.link.0 as u64 * 4_294_967_296 + entry.round as u64
}
