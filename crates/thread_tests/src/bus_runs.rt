//! A bus before its first event, its run in threads, and the resulting bus.
ghost use Rattle.std.specs.Prelude.{IsTrue, IfOk, length};
ghost use Rattle.pals_model.specs.Delays.{AreDelays};
ghost use Rattle.node_threads.specs.proof.SharedCourses.{AreClocksOf};

use crate::accepted_design::design_of;
use design_codes::compile_all;
use loose_world::add_common_rows;
use node_threads::{Gate, Host, NodeEnd, RunEnd, Starter, run_threads};
use pals_base::{ItemList, Nanos, NoMemory, PortValue};
use pals_bus::Bus;
use pals_clock::Clocks;
use pals_model::{Delays, Design, Env};
use std::alloc::Global;
use std::process::Abort;
use std::sync::{Arc, Wait};
use std::test::Fail;
use std::thread::Threads;

const MILLI: Nanos = 1_000_000;

// One millisecond for each message of a design.
fn delays(alloc: Global, design: &Design) -> Result<Delays, NoMemory>
    ensures { IfOk result (AreDelays (length design.now.links)) }
{
    let mut lists = ItemList::new(alloc);
    for _link in design.links() {
        lists.push(ItemList::from_slice(alloc, &[MILLI])?)?;
    }
    Ok(Delays { lists })
}

// The one root in port has this value in round 0.
fn inputs(alloc: Global, value: i64) -> Result<Env, NoMemory> {
    let mut lists = ItemList::new(alloc);
    lists.push(ItemList::from_slice(alloc, &[PortValue::Present(value)])?)?;
    Ok(Env { lists })
}

/// A bus of the design of a text before its first event, for three rounds: each message takes 1 ms, and
/// a root in port has 10 in round 0. Its nodes may meet.
pub fn bus_of(rt: &impl Abort, alloc: Global, text: &str, meeting: bool) -> Result<Bus, Fail> {
    let design = Arc::new(alloc, design_of(rt, alloc, text)?)?;
    let codes = compile_all(alloc, &design)?;
    let delays = delays(alloc, &design)?;
    let env = inputs(alloc, 10)?;
    Ok(Bus::new(alloc, design, codes, env, 3, delays, meeting)?)
}

// Whether the clocks are the clocks of a bus.
fn are_of(clocks: &Clocks, bus: &Bus) -> bool
    ensures { IsTrue result → AreClocksOf bus.now clocks.now }
{
    match clocks {
        Clocks::Meet => bus.meeting(),
        Clocks::Lists(lists) => { !bus.meeting() && lists.len() == bus.design().components().len() }
    }
}

// A run of a bus from its opening.
fn run<R: Threads + Wait + Sync, W: Starter, G: Gate + Sync>(
    host: Host<'_, R, W, G>,
    alloc: Global,
    bus: &Bus,
    clocks: Clocks,
) -> Result<RunEnd, NoMemory>
    requires { AreClocksOf bus.now clocks }
{
    let fresh = bus.fresh(alloc)?;
    run_threads(host, alloc, fresh, clocks)
}

// The rows of the rounds that all nodes have finished, and a line for the end of each node.
fn told(alloc: Global, end: &RunEnd) -> Result<Vec<u8>, NoMemory> {
    let mut text = Vec::new(alloc);
    add_common_rows(alloc, &mut text, &end.bus)?;
    for number in 0..end.ends.len() {
        let line = end_line(alloc, end.ends[number])?;
        text.extend_from_slice(line.as_bytes())?;
    }
    Ok(text)
}

fn end_line(alloc: Global, end: NodeEnd) -> Result<String, NoMemory> {
    Ok(match end {
        NodeEnd::Finished => format!(in alloc; "finished\n")?,
        NodeEnd::Stopped => format!(in alloc; "stopped\n")?,
        NodeEnd::ClockEnded { target } => format!(in alloc; "clock ended {target}\n")?,
        NodeEnd::Closed => format!(in alloc; "closed\n")?,
        NodeEnd::Memory => format!(in alloc; "memory\n")?,
    })
}

/// Whether a run of a bus from its opening has this outcome.
pub fn tells<R: Threads + Wait + Sync, W: Starter, G: Gate + Sync>(
    host: Host<'_, R, W, G>,
    alloc: Global,
    bus: &Bus,
    clocks: Clocks,
    wanted: &str,
) -> Result<bool, NoMemory> {
    if !are_of(&clocks, bus) {
        return Ok(false);
    }
    let end = run(host, alloc, bus, clocks)?;
    Ok(told(alloc, &end)?.as_slice() == wanted.as_bytes())
}
