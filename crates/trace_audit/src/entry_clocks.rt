//! The clock that an entry reads.
ghost use Rattle.std.specs.Prelude.{◌≡◌, ◌<◌, length, option_map, IfSome};
ghost use Rattle.run_laws.specs.EntryEventsAndReadings.{timed, has_reading};
ghost use Rattle.run_laws.specs.TraceRules.{falls};
ghost use Rattle.run_laws.specs.TraceVerdicts.{noted};
ghost use Rattle.bus_machine.specs.Plans.{link_at};
ghost use Rattle.run_laws.specs.EntriesOfDesigns.{IsEntryIn};
ghost use Rattle.trace_audit.specs.proof.EntryClocks.{timed_of, read_at};

use pals_base::{LinkNo, Nanos, NodeNo};
use pals_model::Design;
use pals_runs::{JournalEntry, Stop};

/// A reading of a node's clock, in nanoseconds; `None` if the entry has no reading.
#[derive(Clone, Copy)]
pub struct ClockReading {
    pub node: u32,
    pub reading: Option<Nanos>,
}

/// The clock that an entry reads, if it reads one: an arrival and a stop that of the link's target.
pub fn clock_of(design: &Design, entry: &JournalEntry) -> Option<ClockReading>
    requires { IsEntryIn design.now entry.now }
    ensures value { option_map timed_of result ≡ timed design.now entry.now }
    ensures within { IfSome result (λ clock. clock.node < length design.now.components) }
{
    match *entry {
        JournalEntry::Arrive { link, reading, .. }
        | JournalEntry::Stopped(
            Stop::Missed { link, reading, .. } | Stop::Early { link, reading, .. },
        ) => {
            Some(ClockReading {
                node: target(design, link).0,
                reading,
            })
        }
        JournalEntry::Start { node, reading, .. }
        | JournalEntry::Step { node, reading, .. }
        | JournalEntry::Send { node, reading, .. } => Some(ClockReading {
            node: node.0,
            reading,
        }),
        JournalEntry::Finish { .. } | JournalEntry::Drop { .. } | JournalEntry::Repeat { .. } =>
            None,
    }
}

/// The node that a link goes to.
pub fn target(design: &Design, link: LinkNo) -> NodeNo
    requires { link.0 < length design.now.links }
    ensures value { result ≡ (link_at design.now link.0).target }
    ensures within { result.0 < length design.now.components }
{
    design.links()[link.0 as usize].target
}

/// Whether an entry that reads a clock has a reading.
pub fn has_reading(clock: Option<ClockReading>) -> bool
    ensures { result ≡ has_reading (option_map timed_of clock) }
{
    match clock {
        Some(clock) => clock.reading.is_some(),
        None => true,
    }
}

/// Whether a reading is less than an earlier one of the node.
pub fn falls(readings: &[Nanos], node: NodeNo, reading: Nanos) -> bool
    requires { node.0 < length readings.now }
    ensures { result ≡ falls readings.now (read_at node.0 reading) }
{
    reading < readings[node.0 as usize]
}

/// Notes the reading of an entry as the last one of its node.
pub fn note(readings: &mut Vec<Nanos>, clock: Option<ClockReading>)
    requires { IfSome clock (λ clock. clock.node < length readings.old.items) }
    ensures { readings.new.items ≡ noted readings.old.items (option_map timed_of clock) }
{
    if let Some(clock) = clock {
        readings[clock.node as usize] = clock.reading.unwrap_or(0);
    }
}
