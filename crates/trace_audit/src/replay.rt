//! The replay of a journal on a bus, line by line, each with the first rule that it breaks.
ghost use Rattle.std.specs.Prelude.{◌≡◌, ◌<◌, Option, Some, None, Ok, false, IfOk, IfSome};
ghost use Rattle.bus_machine.specs.BusStates.{opening};
ghost use Rattle.run_laws.specs.EntriesOfDesigns.{IsEntryIn};
ghost use Rattle.run_laws.specs.EntryEventsAndReadings.{has_reading};
ghost use Rattle.run_laws.specs.TraceVerdicts.{opening_audit, line_broken};
ghost use Rattle.trace_audit.specs.proof.OwedStops.{owed_by};
ghost use Rattle.trace_audit.specs.proof.AuditInvariant.{IsReplay, Follows, IsClockOf, audit_in};

use crate::entry_clocks::{ClockReading, clock_of, has_reading, note};
use crate::entry_comparison::is_line_of;
use crate::replayed_entries::replay_entry;
use pals_base::{Nanos, NoMemory};
use pals_bus::Bus;
use pals_runs::{Arrived, JournalEntry, Stop, TraceRule};
use std::alloc::Global;

/// A bus that replays a journal, the last reading of each node, and the stop that the next line must state,
/// if there is one.
#[derive(Drop)]
pub struct Replay {
    pub bus: Bus,
    pub readings: Vec<Nanos>,
    pub owed: Option<JournalEntry>,
}

impl Replay {
    /// A run before its first event.
    pub fn new(alloc: Global, bus: Bus) -> Result<Replay, NoMemory>
        requires loose { bus.meeting ≡ false }
        requires opening { bus.state ≡ opening bus.run }
        ensures kept { IfOk result IsReplay }
        ensures run { IfOk result (λ replay. replay.bus.run ≡ bus.run) }
        ensures value { IfOk result (λ replay. audit_in replay ≡ opening_audit bus.run) }
    {
        let readings = vec![in alloc; 0_u64; bus.design().components().len()]?;
        Ok(Replay {
            bus,
            readings,
            owed: None,
        })
    }

    /// Replays a line and returns the first rule that the line violates, or `None`. If a rule is violated,
    /// the state afterwards is unspecified.
    pub fn audit_line(&mut self, told: Option<JournalEntry>) -> Result<Option<TraceRule>, NoMemory>
        requires kept { IsReplay self.old }
        requires entry { IfSome told (IsEntryIn self.old.bus.run.design) }
        ensures rule { IfOk result (λ rule. rule ≡ line_broken self.old.bus.run (audit_in self.old) told) }
        ensures next { result ≡ Ok None → IfSome told (λ entry. Follows self.old entry self.new) }
    {
        let Some(entry) = told else {
            return Ok(Some(TraceRule::Text));
        };
        let clock = clock_of(self.bus.design(), &entry);
        if !has_reading(clock) {
            return Ok(Some(TraceRule::Text));
        }
        match self.owed {
            Some(owed) => Ok(self.take_stop(&entry, clock, &owed)),
            None => self.take_entry(&entry, clock),
        }
    }

    // The line after an early arrival.
    fn take_stop(
        &mut self,
        entry: &JournalEntry,
        clock: Option<ClockReading>,
        owed: &JournalEntry,
    ) -> Option<TraceRule>
        requires kept { IsReplay self.old }
        requires entry { IsEntryIn self.old.bus.run.design entry.now }
        requires clock { IsClockOf self.old entry.now clock }
        requires owed { self.old.owed ≡ Some owed.now }
        ensures rule { result ≡ line_broken self.old.bus.run (audit_in self.old) (Some entry.now) }
        ensures next { result ≡ None → Follows self.old entry.now self.new }
    {
        if !is_line_of(self.bus.design(), entry, owed) {
            return Some(TraceRule::Stop);
        }
        note(&mut self.readings, clock);
        self.owed = None;
        None
    }

    // Another line.
    fn take_entry(
        &mut self,
        entry: &JournalEntry,
        clock: Option<ClockReading>,
    ) -> Result<Option<TraceRule>, NoMemory>
        requires kept { IsReplay self.old }
        requires entry { IsEntryIn self.old.bus.run.design entry.now }
        requires clock { IsClockOf self.old entry.now clock }
        requires owed { self.old.owed ≡ None }
        ensures rule { IfOk result (λ rule. rule ≡ line_broken self.old.bus.run (audit_in self.old) (Some entry.now)) }
        ensures next { result ≡ Ok None → Follows self.old entry.now self.new }
    {
        if self.bus.stop().is_some() {
            return Ok(Some(TraceRule::Order));
        }
        if let Some(rule) = replay_entry(&mut self.bus, self.readings.as_slice(), entry)? {
            return Ok(Some(rule));
        }
        note(&mut self.readings, clock);
        self.owed = owed_by(entry);
        Ok(None)
    }
}

// The stop that the line after an entry must state, if there is one.
fn owed_by(entry: &JournalEntry) -> Option<JournalEntry>
    ensures { result ≡ owed_by entry.now }
{
    match *entry {
        JournalEntry::Arrive {
            link,
            round,
            reading,
            result: Arrived::Early,
        } => {
            let stop = Stop::Early {
                link,
                round,
                reading,
            };
            Some(JournalEntry::Stopped(stop))
        }
        _ => None,
    }
}
