//! The arrival of a message.
ghost use Rattle.std.specs.Prelude.{◌≡◌, ◌+◌, ◌<◌, ◌≤◌, ◌++◌, length, sum_by, IfSome, IfNone, None, false};
ghost use Rattle.std.specs.Prelude.{slice_index_or, vec_capacity};
ghost use Rattle.std.specs.Arc.{arc_value};
ghost use Rattle.bus_machine.specs.Machine.{Arrive, arrival, early_stop};
ghost use Rattle.bus_machine.specs.Replay.{stop_entry};
ghost use Rattle.bus_machine.specs.LinkEvents.{is_in_flight};
ghost use Rattle.bus_machine.specs.BusStates.{flight_at};
ghost use Rattle.bus_machine.specs.Plans.{no_link};
ghost use Rattle.pals_bus.specs.BusValues.{Happens};
ghost use Rattle.pals_bus.specs.proof.BusInvariant.{IsBusInvariant, owed, run_of, state_of, value_of};

use crate::bus_fields::BusFields;
use pals_base::{LinkNo, Nanos};
use pals_model::Link;
use pals_runs::{Arrived, JournalEntry, Stop};

impl BusFields {
    /// A link's message of a round arrives, in a run without a stop and with room in the journal for it
    /// and for a stop. Does not allocate.
    pub fn arrive(&mut self, link: LinkNo, round: u32, reading: Option<Nanos>) -> Option<Arrived>
        requires keeps { IsBusInvariant self.old }
        requires going { self.old.stop ≡ None }
        requires link { link.0 < length (arc_value self.old.design).links }
        requires room { length self.old.journal.items + sum_by owed self.old.nodes + 2 ≤ vec_capacity self.old.journal }
        ensures keeps { IsBusInvariant self.new }
        ensures some { IfSome result (λ arrived. Happens (value_of self.old) (Arrive link round reading)
            (value_of self.new)
            × (arrived ≡ arrival (run_of self.old) (state_of self.old) link round)) }
        ensures none { IfNone result ((value_of self.new ≡ value_of self.old)
            × (is_in_flight round (flight_at (state_of self.old) link.0) ≡ false)) }
        ensures owed { sum_by owed self.new.nodes ≡ sum_by owed self.old.nodes }
        ensures room { vec_capacity self.new.journal ≡ vec_capacity self.old.journal }
    {
        let tuple = self.take_message(link, round)?;
        let (target, port) = end_of(self.design.links(), link.0 as usize);
        let result = self.nodes.arrive(target, port, round, tuple);
        let stop = early_stop(link, round, reading, result);
        let entry = JournalEntry::Arrive {
            link,
            round,
            reading,
            result,
        };
        self.journal.push_reserved(entry);
        tell_stop(&mut self.journal, stop);
        self.stop = stop;
        Some(result)
    }
}

// The node and the in port that a link goes to.
fn end_of(links: &[Link], at: usize) -> (usize, u32)
    requires { at < length links.now }
    ensures node { result.0 ≡ (slice_index_or links.now at no_link).target.0 }
    ensures port { result.1 ≡ (slice_index_or links.now at no_link).in_port }
{
    let link = &links[at];
    (link.target.0 as usize, link.in_port)
}

// The stop of an arrival, if it is too early.
fn early_stop(link: LinkNo, round: u32, reading: Option<Nanos>, arrived: Arrived) -> Option<Stop>
    ensures { result ≡ early_stop link round reading arrived }
{
    match arrived {
        Arrived::Kept | Arrived::Ignored => None,
        Arrived::Early => Some(Stop::Early {
            link,
            round,
            reading,
        }),
    }
}

// Adds the entry of a stop to a journal with room for it, where there is a stop.
fn tell_stop(journal: &mut Vec<JournalEntry>, stop: Option<Stop>)
    requires { length journal.old.items < vec_capacity journal.old }
    ensures items { journal.new.items ≡ journal.old.items ++ stop_entry stop }
    ensures capacity { vec_capacity journal.new ≡ vec_capacity journal.old }
{
    if let Some(why) = stop {
        journal.push_reserved(JournalEntry::Stopped(why));
    }
}
