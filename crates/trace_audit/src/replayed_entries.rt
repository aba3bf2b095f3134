//! Entries, replayed on a bus without a stop.
ghost use Rattle.std.specs.Prelude.{◌≡◌, ◌<◌, length, Some, None, Ok, true, IfOk};
ghost use Rattle.pals_runs.specs.declared.journal.Stop.TheVariants as stop;
ghost use Rattle.pals_runs.specs.declared.journal.JournalEntry.TheVariants as entry;
ghost use Rattle.run_laws.specs.EntriesOfDesigns.{IsEntryIn};
ghost use Rattle.run_laws.specs.EntryEventsAndReadings.{has_reading, timed};
ghost use Rattle.run_laws.specs.TraceRules.{broken};
ghost use Rattle.trace_audit.specs.proof.ReplayedEvents.{IsReady, IsReplayed};

use crate::entry_clocks::{falls, target};
use crate::replayed_events::{arrive, begin, finish, send, step};
use pals_base::{LinkNo, Nanos, NoMemory, NodeNo};
use pals_bus::Bus;
use pals_runs::{Cause, JournalEntry, Stop, TraceRule};

/// Replays an entry and returns the first rule that the entry violates, or `None`. If a rule is violated,
/// the state of the bus afterwards is unspecified.
pub fn replay_entry(
    bus: &mut Bus,
    readings: &[Nanos],
    entry: &JournalEntry,
) -> Result<Option<TraceRule>, NoMemory>
    requires ready { IsReady bus.old readings.now }
    requires entry { IsEntryIn bus.old.run.design entry.now }
    requires reading { has_reading (timed bus.old.run.design entry.now) ≡ true }
    ensures rule { IfOk result (λ rule. rule ≡ broken bus.old.run bus.old.state readings.now entry.now) }
    ensures next { result ≡ Ok None → IsReplayed bus.old entry.now bus.new }
{
    match *entry {
        JournalEntry::Arrive {
            link,
            round,
            reading,
            result: outcome,
        } => arrive(bus, readings, link, round, reading.unwrap_or(0), outcome),
        JournalEntry::Start {
            node,
            round,
            reading,
        } => start(bus, readings, node, round, reading.unwrap_or(0)),
        JournalEntry::Step {
            node,
            round,
            step: number,
            reading,
        } => step(bus, readings, node, round, number, reading.unwrap_or(0)),
        JournalEntry::Finish { node, round } => Ok(finish(bus, readings, node, round)),
        JournalEntry::Send {
            node,
            round,
            reading,
        } => Ok(send(bus, readings, node, round, reading.unwrap_or(0))),
        JournalEntry::Drop { .. } | JournalEntry::Repeat { .. } => Ok(Some(TraceRule::Order)),
        JournalEntry::Stopped(
            Stop::Missed {
                link,
                round,
                reading,
                cause,
            },
        ) => miss(bus, readings, link, round, reading.unwrap_or(0), cause),
        JournalEntry::Stopped(
            Stop::Early {
                link,
                round,
                reading,
            },
        ) => Ok(stray_stop(bus, readings, link, round, reading.unwrap_or(0))),
    }
}

// A start line.
fn start(
    bus: &mut Bus,
    readings: &[Nanos],
    node: NodeNo,
    round: u32,
    reading: Nanos,
) -> Result<Option<TraceRule>, NoMemory>
    requires ready { IsReady bus.old readings.now }
    requires entry { IsEntryIn bus.old.run.design (entry.Start node round (Some reading)) }
    ensures rule { IfOk result (λ rule. rule ≡ broken bus.old.run bus.old.state readings.now
        (entry.Start node round (Some reading))) }
    ensures next { result ≡ Ok None → IsReplayed bus.old (entry.Start node round (Some reading)) bus.new }
{
    if round != bus.count(node) {
        return Ok(Some(TraceRule::Order));
    }
    let entry = JournalEntry::Start {
        node,
        round,
        reading: Some(reading),
    };
    begin(bus, readings, node, reading, &entry)
}

// The line of a missed stop, which states the start that misses the message.
fn miss(
    bus: &mut Bus,
    readings: &[Nanos],
    link: LinkNo,
    round: u32,
    reading: Nanos,
    cause: Cause,
) -> Result<Option<TraceRule>, NoMemory>
    requires ready { IsReady bus.old readings.now }
    requires entry { IsEntryIn bus.old.run.design (entry.Stopped (stop.Missed link round (Some reading) cause)) }
    ensures rule { IfOk result (λ rule. rule ≡ broken bus.old.run bus.old.state readings.now
        (entry.Stopped (stop.Missed link round (Some reading) cause))) }
    ensures next { result ≡ Ok None → IsReplayed bus.old (entry.Stopped (stop.Missed link round (Some reading) cause))
        bus.new }
{
    let node = target(bus.design(), link);
    if round + 1 != bus.count(node) {
        return Ok(Some(TraceRule::Order));
    }
    let entry = JournalEntry::Stopped(Stop::Missed {
        link,
        round,
        reading: Some(reading),
        cause,
    });
    begin(bus, readings, node, reading, &entry)
}

// The line of an early stop that does not follow its arrival.
fn stray_stop(
    bus: &Bus,
    readings: &[Nanos],
    link: LinkNo,
    _round: u32,
    reading: Nanos,
) -> Option<TraceRule>
    requires ready { IsReady bus.now readings.now }
    requires link { link.0 < length bus.now.run.design.links }
    ensures { result ≡ broken bus.now.run bus.now.state readings.now
        (entry.Stopped (stop.Early link _round (Some reading))) }
{
    if falls(readings, target(bus.design(), link), reading) {
        Some(TraceRule::Reading)
    } else {
        Some(TraceRule::Stop)
    }
}
