//! The events of entries, replayed on a bus without a stop. Each function returns the first rule that its
//! entry violates, or `None`. If a rule is violated, the state of the bus afterwards is unspecified.
ghost use Rattle.std.specs.Prelude.{◌≡◌, ◌<◌, ◌≤◌, nat_eq, length, Some, None, Ok, false, IfOk, option_copied};
ghost use Rattle.std.specs.Option.{option_map_or};
ghost use Rattle.pals_base.specs.declared.limits.TheConstants.{ROUNDS};
ghost use Rattle.pals_model.specs.DesignRules.{IsDesign};
ghost use Rattle.pals_runs.specs.declared.journal.JournalEntry.TheVariants as entry;
ghost use Rattle.bus_machine.specs.Nodes.{round_of};
ghost use Rattle.bus_machine.specs.NodeEvents.{next_step};
ghost use Rattle.bus_machine.specs.BusStates.{node_at};
ghost use Rattle.run_laws.specs.EntriesOfDesigns.{IsEntryIn};
ghost use Rattle.run_laws.specs.TraceRules.{broken, is_due};
ghost use Rattle.trace_audit.specs.proof.ReplayedEvents.{IsReady, SaysStart, IsReplayed};

use crate::entry_clocks::{falls, target};
use crate::entry_comparison::is_last;
use crate::first_broken_rule::{early_rule, late_rule};
use pals_base::{LinkNo, Nanos, NoMemory, NodeNo};
use pals_bus::{Bus, BusError, MessageError};
use pals_model::FlightCopy;
use pals_node::{SendEnd, StartEnd, StepEnd};
use pals_runs::{Arrived, JournalEntry, Phase, TraceRule};
use std::alloc::AllocError;

/// A node starts its next round, or misses a message there, as an entry states.
pub fn begin(
    bus: &mut Bus,
    readings: &[Nanos],
    node: NodeNo,
    reading: Nanos,
    entry: &JournalEntry,
) -> Result<Option<TraceRule>, NoMemory>
    requires ready { IsReady bus.old readings.now }
    requires node { node.0 < length bus.old.run.design.components }
    requires entry { IsEntryIn bus.old.run.design entry.now }
    requires says { SaysStart bus.old readings.now entry.now node reading }
    ensures rule { IfOk result (λ rule. rule ≡ broken bus.old.run bus.old.state readings.now entry.now) }
    ensures next { result ≡ Ok None → IsReplayed bus.old entry.now bus.new }
{
    keeps(bus, node);
    let falls = falls(readings, node, reading);
    let waits = bus.has_due(node, reading);
    match bus.start(node, Some(reading)) {
        Ok(_job) => Ok(late_rule(falls, waits, is_last(bus.journal(), entry))),
        Err(BusError::Stopped(_)) => Ok(late_rule(falls, waits, is_last(bus.journal(), entry))),
        Err(BusError::Refused(StartEnd::NotYet { .. })) => {
            Ok(Some(early_rule(falls, TraceRule::Alarm)))
        }
        Err(BusError::Refused(StartEnd::Busy | StartEnd::Over)) => Ok(Some(TraceRule::Order)),
        Err(BusError::Refused(StartEnd::Missed { .. })) => unreachable!(),
        Err(BusError::Refused(StartEnd::Memory)) => Err(AllocError),
    }
}

/// A node starts the next step of its round.
pub fn step(
    bus: &mut Bus,
    readings: &[Nanos],
    node: NodeNo,
    round: u32,
    step: u32,
    reading: Nanos,
) -> Result<Option<TraceRule>, NoMemory>
    requires ready { IsReady bus.old readings.now }
    requires entry { IsEntryIn bus.old.run.design (entry.Step node round step (Some reading)) }
    ensures rule { IfOk result (λ rule. rule ≡ broken bus.old.run bus.old.state readings.now
        (entry.Step node round step (Some reading))) }
    ensures next { result ≡ Ok None → IsReplayed bus.old (entry.Step node round step (Some reading)) bus.new }
{
    if round != in_hand(bus, node) {
        return Ok(Some(TraceRule::Order));
    }
    if !is_next(bus.phase(node), step) {
        return Ok(Some(TraceRule::Order));
    }
    let falls = falls(readings, node, reading);
    match bus.step(node, Some(reading)) {
        Ok(_job) => Ok(late_rule(falls, false, true)),
        Err(BusError::Refused(StepEnd::NotYet { .. })) => {
            Ok(Some(early_rule(falls, TraceRule::Alarm)))
        }
        Err(BusError::Stopped(_) | BusError::Refused(StepEnd::NotBetween)) => {
            Ok(Some(TraceRule::Order))
        }
        Err(BusError::Refused(StepEnd::Memory)) => Err(AllocError),
    }
}

/// A node finishes the step that is out.
pub fn finish(bus: &mut Bus, readings: &[Nanos], node: NodeNo, round: u32) -> Option<TraceRule>
    requires ready { IsReady bus.old readings.now }
    requires entry { IsEntryIn bus.old.run.design (entry.Finish node round) }
    ensures rule { result ≡ broken bus.old.run bus.old.state readings.now (entry.Finish node round) }
    ensures next { result ≡ None → IsReplayed bus.old (entry.Finish node round) bus.new }
{
    if round != in_hand(bus, node) {
        return Some(TraceRule::Order);
    }
    match bus.finish_here(node) {
        Ok(()) => None,
        Err(BusError::Stopped(_) | BusError::Refused(_)) => Some(TraceRule::Order),
    }
}

/// A node sends its round.
pub fn send(
    bus: &mut Bus,
    readings: &[Nanos],
    node: NodeNo,
    round: u32,
    reading: Nanos,
) -> Option<TraceRule>
    requires ready { IsReady bus.old readings.now }
    requires entry { IsEntryIn bus.old.run.design (entry.Send node round (Some reading)) }
    ensures rule { result ≡ broken bus.old.run bus.old.state readings.now (entry.Send node round (Some reading)) }
    ensures next { result ≡ None → IsReplayed bus.old (entry.Send node round (Some reading)) bus.new }
{
    if round != in_hand(bus, node) {
        return Some(TraceRule::Order);
    }
    let falls = falls(readings, node, reading);
    match bus.send(node, Some(reading)) {
        Ok(()) => late_rule(falls, false, true),
        Err(BusError::Refused(SendEnd::NotYet { .. })) => {
            Some(early_rule(falls, TraceRule::Release))
        }
        Err(BusError::Stopped(_) | BusError::Refused(SendEnd::NotFinished)) => {
            Some(TraceRule::Order)
        }
    }
}

/// A link's message of a round arrives, with this result.
pub fn arrive(
    bus: &mut Bus,
    readings: &[Nanos],
    link: LinkNo,
    round: u32,
    reading: Nanos,
    outcome: Arrived,
) -> Result<Option<TraceRule>, NoMemory>
    requires ready { IsReady bus.old readings.now }
    requires entry { IsEntryIn bus.old.run.design (entry.Arrive link round (Some reading) outcome) }
    ensures rule { IfOk result (λ rule. rule ≡ broken bus.old.run bus.old.state readings.now
        (entry.Arrive link round (Some reading) outcome)) }
    ensures next { result ≡ Ok None → IsReplayed bus.old (entry.Arrive link round (Some reading) outcome) bus.new }
{
    let falls = falls(readings, target(bus.design(), link), reading);
    let due = is_due(bus.in_flight(link, round), reading);
    match bus.deliver(link, round, Some(reading)) {
        Ok(arrived) => {
            if arrived == outcome {
                Ok(late_rule(falls, !due, true))
            } else {
                Ok(Some(TraceRule::Order))
            }
        }
        Err(BusError::Stopped(_) | BusError::Refused(MessageError::NoSuchMessage)) => {
            Ok(Some(TraceRule::Order))
        }
        Err(BusError::Refused(MessageError::Memory)) => Err(AllocError),
    }
}

// What a bus keeps of its design, and of the rounds of a node.
fn keeps(bus: &Bus, node: NodeNo)
    requires { node.0 < length bus.now.run.design.components }
    ensures design { IsDesign bus.now.run.design }
    ensures rounds { (node_at bus.now.state node.0).count ≤ ROUNDS }
{
    bus.agreement();
    let _period = bus.design().period();
}

// Whether a node that does this starts this step next.
fn is_next(phase: Phase, step: u32) -> bool
    ensures { result ≡ option_map_or (nat_eq step) (next_step phase) false }
{
    match phase {
        Phase::Between(next) => step == next,
        Phase::Waiting | Phase::Running(_) | Phase::Holding | Phase::Done => false,
    }
}

// The round that a node has in hand.
fn in_hand(bus: &Bus, node: NodeNo) -> u32
    requires { node.0 < length bus.now.run.design.components }
    ensures { result ≡ round_of (node_at bus.now.state node.0) }
{
    bus.count(node).saturating_sub(1)
}

// Whether a message is due at a reading of its target's clock.
fn is_due(copy: Option<&FlightCopy>, reading: Nanos) -> bool
    ensures { result ≡ option_map_or (is_due (Some reading)) (option_copied copy.entry) false }
{
    match copy {
        None => false,
        Some(copy) => match copy.due {
            None => false,
            Some(due) => due <= reading,
        },
    }
}
