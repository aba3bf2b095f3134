//! Calls of a bus that look first whether it has the node or the link, and the bus of a design's text that they are
//! made on.
ghost use Rattle.std.specs.Prelude.{◌≡◌, ◌<◌, ◌≤◌, IsTrue, IfOk, length, true, Some};
ghost use Rattle.pals_base.specs.declared.limits.TheConstants.{ROUNDS};
ghost use Rattle.pals_model.specs.Delays.{AreDelays};
ghost use Rattle.pals_bus.specs.proof.Meeting.{GoesAt};

use crate::accepted_design::design_of;
use design_codes::compile_all;
use loose_world::add_journal;
use pals_base::limits::READING;
use pals_base::{ItemList, LinkNo, Nanos, NoMemory, NodeNo};
use pals_bus::{Bus, DueEnd, Meet};
use pals_model::{Delays, Design, Env};
use pals_node::{Done, Finished, Job};
use pals_runs::Phase;
use std::alloc::Global;
use std::process::Abort;
use std::sync::Arc;
use std::test::Fail;

const MILLI: Nanos = 1_000_000;

// One millisecond for each message of a design.
fn delays(alloc: Global, design: &Design) -> Result<Delays, NoMemory>
    ensures { IfOk result (AreDelays (length design.now.links)) }
{
    let mut lists = ItemList::new(alloc);
    for _link in design.links() {
        lists.push(ItemList::from_slice(alloc, &[MILLI])?)?;
    }
    Ok(Delays { lists })
}

/// A bus of the design of a text before its first event, in which each message takes 1 ms, and the
/// root has no values; its nodes may meet.
pub fn bus_of(
    rt: &impl Abort,
    alloc: Global,
    text: &str,
    rounds: u32,
    meeting: bool,
) -> Result<Bus, Fail>
    requires some { 1 ≤ rounds }
    requires most { rounds ≤ ROUNDS }
{
    let design = Arc::new(alloc, design_of(rt, alloc, text)?)?;
    let codes = compile_all(alloc, &design)?;
    let delays = delays(alloc, &design)?;
    let env = Env {
        lists: ItemList::new(alloc),
    };
    Ok(Bus::new(alloc, design, codes, env, rounds, delays, meeting)?)
}

// Whether a bus has this node.
fn has_node(bus: &Bus, node: NodeNo) -> bool
    ensures { IsTrue result → node.0 < length bus.now.run.design.components }
{
    (node.0 as usize) < bus.design().components().len()
}

// Whether a bus has this link.
fn has_link(bus: &Bus, link: LinkNo) -> bool
    ensures { IsTrue result → link.0 < length bus.now.run.design.links }
{
    (link.0 as usize) < bus.design().links().len()
}

// Whether a node of a bus may act at a reading: in virtual time, only at the smallest target.
fn goes_at(bus: &Bus, node: NodeNo, reading: Nanos) -> bool
    requires { node.0 < length bus.now.run.design.components }
    ensures { IsTrue result → bus.now.meeting ≡ true → GoesAt bus.now node.0 (Some reading) }
{
    if !bus.meeting() {
        return true;
    }
    if bus.next(node).is_none() {
        return false;
    }
    match bus.meet(node) {
        Meet::Go { reading: at } => at == reading,
        Meet::Wait { .. } | Meet::Ended => false,
    }
}

/// The job of a node's next round, if it starts.
pub fn start(bus: &mut Bus, node: NodeNo, reading: Nanos) -> Option<Job> {
    if !has_node(bus, node) || !goes_at(bus, node, reading) {
        return None;
    }
    bus.start(node, Some(reading)).ok()
}

/// The job of a node's next step, if it makes one.
pub fn step(bus: &mut Bus, node: NodeNo, reading: Nanos) -> Option<Job> {
    if !has_node(bus, node) || !goes_at(bus, node, reading) {
        return None;
    }
    bus.step(node, Some(reading)).ok()
}

/// How a step finishes with the submitted job, if it does.
pub fn finish(bus: &mut Bus, node: NodeNo, done: Done) -> Option<Finished> {
    if !has_node(bus, node) {
        return None;
    }
    bus.finish(node, done).ok()
}

/// Whether a step finishes here.
pub fn finish_here(bus: &mut Bus, node: NodeNo) -> bool {
    has_node(bus, node) && bus.finish_here(node).is_ok()
}

/// Whether a node sends its round.
pub fn send(bus: &mut Bus, node: NodeNo, reading: Nanos) -> bool {
    has_node(bus, node)
        && reading <= READING
        && goes_at(bus, node, reading)
        && bus.send(node, Some(reading)).is_ok()
}

/// Whether one more copy of a link's message of a round is in flight now.
pub fn repeat(bus: &mut Bus, link: LinkNo, round: u32) -> bool {
    has_link(bus, link) && bus.repeat_message(link, round).is_ok()
}

/// How every message that is due to a node arrives.
pub fn take_due(bus: &mut Bus, node: NodeNo, reading: Nanos) -> Option<Result<(), DueEnd>> {
    if !has_node(bus, node) {
        return None;
    }
    Some(bus.take_due(node, reading))
}

/// Whether a node may act in virtual time, if it has a next action.
pub fn meet(bus: &Bus, node: NodeNo) -> Option<Meet> {
    if !has_node(bus, node) || !bus.meeting() || bus.next(node).is_none() {
        return None;
    }
    Some(bus.meet(node))
}

/// What a node does.
pub fn phase(bus: &Bus, node: NodeNo) -> Option<Phase> {
    if !has_node(bus, node) {
        return None;
    }
    Some(bus.phase(node))
}

/// How many rounds a node has started.
pub fn count(bus: &Bus, node: NodeNo) -> Option<u32> {
    if !has_node(bus, node) {
        return None;
    }
    Some(bus.count(node))
}

/// Whether a copy of a link's message of a round is in flight.
pub fn is_in_flight(bus: &Bus, link: LinkNo, round: u32) -> bool {
    has_link(bus, link) && bus.in_flight(link, round).is_some()
}

/// Whether the variables of a node have these values after a round.
pub fn leaves(bus: &Bus, node: NodeNo, round: u32, vars: &[i64]) -> bool {
    if !has_node(bus, node) {
        return false;
    }
    match bus.part(node, round) {
        Some(part) => part.frame.vars.as_slice() == vars,
        None => false,
    }
}

/// Whether the journal of a bus has these lines.
pub fn tells(alloc: Global, bus: &Bus, wanted: &str) -> Result<bool, NoMemory> {
    let mut lines = Vec::new(alloc);
    add_journal(&mut lines, bus)?;
    Ok(lines.as_slice() == wanted.as_bytes())
}
