//! The line of a ring that has gone through its schedule.
ghost use Rattle.std.specs.Prelude.{◌≡◌, ℕ, ◌≤◌, ◌<◌, IfOk, OnOk};
ghost use Rattle.pals_base.specs.declared.limits.TheConstants.{COMPONENTS, ROUNDS};
ghost use Rattle.pals_runs.specs.declared.events_and_faults.EventFault.TheVariants as fault;
ghost use Rattle.pals_bus.specs.proof.StepCodesOfNodes.{AreCodes};
ghost use Rattle.run_laws.specs.EventLists.{IsWithin};
ghost use Rattle.timed_world.specs.proof.WorldValuesAndMoves.{world_of};
ghost use Rattle.timed_world.specs.proof.EventLists.{Leads};
ghost use Rattle.world_gen.specs.Rings.{ring, ring_number, ring_sum};
ghost use Rattle.world_texts.specs.RingResultLines.{ring_text, number_in, IsDoneRing};

use design_codes::{CodesError, compile_all};
use pals_base::{ItemList, NoMemory, NodeNo};
use pals_bus::Bus;
use pals_model::{Design, Env, Part};
use pals_report::{LineWord, add_line};
use pals_runs::{Event, EventFault};
use std::alloc::{AllocError, Global};
use std::sync::Arc;
use step_code::Code;
use timed_world::World;
use world_gen::{ring, schedule};

/// Runs a ring of components through its schedule for a number of rounds, and returns how many
/// messages they sent, and the sum of their final numbers.
pub fn tell_ring(alloc: Global, nodes: u32, rounds: u32) -> Result<Vec<u8>, NoMemory>
    requires some { 2 ≤ nodes }
    requires few { nodes ≤ COMPONENTS }
    requires first { 1 ≤ rounds }
    requires last { rounds ≤ ROUNDS }
    ensures { IfOk result (λ text. text.items ≡ ring_text nodes rounds) }
{
    let world = done_ring(alloc, nodes, rounds)?;
    ring_line(
        alloc,
        nodes,
        rounds,
        sum_of_numbers(world.bus(), nodes, rounds),
    )
}

// The line of a ring whose numbers have this sum. It has as many links as components, each with one
// message in a round.
fn ring_line(alloc: Global, nodes: u32, rounds: u32, sum: i64) -> Result<Vec<u8>, NoMemory>
    requires sum { sum ≡ ring_sum nodes rounds }
    ensures { IfOk result (λ text. text.items ≡ ring_text nodes rounds) }
{
    let mut text = Vec::new(alloc);
    add_line(
        &mut text,
        &[
            LineWord::Bytes(b"ring"),
            LineWord::Number(u64::from(nodes)),
            LineWord::Bytes(b"rounds"),
            LineWord::Number(u64::from(rounds)),
            LineWord::Bytes(b"messages"),
            LineWord::Number(u64::from(nodes) * u64::from(rounds)),
            LineWord::Bytes(b"sum"),
            LineWord::Signed(sum),
        ],
    )?;
    Ok(text)
}

// A world of a ring that has gone through its schedule.
fn done_ring(alloc: Global, nodes: u32, rounds: u32) -> Result<World, NoMemory>
    requires some { 2 ≤ nodes }
    requires few { nodes ≤ COMPONENTS }
    requires first { 1 ≤ rounds }
    requires last { rounds ≤ ROUNDS }
    ensures { IfOk result (λ world. IsDoneRing nodes rounds world.bus) }
{
    let design = ring(alloc, nodes)?;
    let codes = codes_of(alloc, &design)?;
    let events = schedule(alloc, &design, rounds)?;
    let env = Env {
        lists: ItemList::new(alloc),
    };
    let mut world = World::new(alloc, Arc::new(alloc, design)?, codes, env, rounds)?;
    go_through(&mut world, events.as_slice())?;
    Ok(world)
}

// The codes of a ring, which are not too long.
fn codes_of(alloc: Global, design: &Design) -> Result<ItemList<Code>, NoMemory>
    requires { (nodes : ℕ) × (design.now ≡ ring nodes) }
    ensures { IfOk result (AreCodes design.now) }
{
    match compile_all(alloc, design) {
        Ok(codes) => Ok(codes),
        Err(CodesError::Memory) => Err(AllocError),
        Err(CodesError::TooLong { .. }) => unreachable!(),
    }
}

// Does events that are within the bounds.
fn go_through(world: &mut World, events: &[Event]) -> Result<(), NoMemory>
    requires { IsWithin world.old.bus.run (world_of world.old) events.now }
    ensures { OnOk result (Leads world.old events.now world.new) }
{
    for event in events {
        match world.apply(event) {
            Ok(()) => {}
            Err(fault) => return Err(refused(fault)),
        }
    }
    Ok(())
}

// What an event that is within the bounds can be refused for.
fn refused(_fault: EventFault) -> NoMemory
    requires { _fault ≡ fault.Memory }
{
    AllocError
}

// The sum of the numbers that the components of a ring come to.
fn sum_of_numbers(bus: &Bus, nodes: u32, rounds: u32) -> i64
    requires some { 1 ≤ rounds }
    requires few { nodes ≤ COMPONENTS }
    requires done { IsDoneRing nodes rounds bus.now }
    ensures { result ≡ ring_sum nodes rounds }
{
    let mut sum = 0;
    for node in 0..nodes {
        sum += number(bus, NodeNo(node), nodes, rounds);
    }
    sum
}

// The number that a component of a ring comes to.
fn number(bus: &Bus, node: NodeNo, nodes: u32, rounds: u32) -> i64
    requires within { node.0 < nodes }
    requires some { 1 ≤ rounds }
    requires few { nodes ≤ COMPONENTS }
    requires done { IsDoneRing nodes rounds bus.now }
    ensures { result ≡ ring_number nodes rounds node.0 }
{
    bus.agreement();
    match bus.part(node, rounds - 1) {
        Some(part) => number_in(part),
        None => unreachable!(),
    }
}

// The number that a component has when it has left a part.
fn number_in(part: &Part) -> i64
    ensures { result ≡ number_in part.now }
{
    part.frame.vars.get(0).copied().unwrap_or(0)
}
