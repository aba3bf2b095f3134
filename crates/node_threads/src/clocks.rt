//! The clocks of a run's nodes: what they show, and lists of which nothing is picked.
ghost use Rattle.std.specs.Prelude.{◌≡◌, List, map, All, IsTrue, IfOk, OnErr, true};
ghost use Rattle.std.specs.List.Sorted.{IsNonDecreasing};
ghost use Rattle.pals_clock.specs.ClockStates.{ClockState, unpicked};
ghost use Rattle.pals_clock.specs.declared.clock.Clocks.TheVariants.{Lists};
ghost use Rattle.node_threads.specs.proof.SharedCourses.{Stays, IsOpen, IsNext, IsReady, Looks, EndsAt, fresh_of};

use crate::course::SharedRun;
use bus_machine::Next;
use pals_base::{ItemList, Nanos, NoMemory, NodeNo};
use pals_bus::Meet;
use pals_clock::{ClockEnd, Clocks, ListClock};
use std::alloc::Global;

/// What a node's clock answers for a target.
#[derive(Clone, Copy)]
pub enum ClockAnswer {
    /// It shows this reading, in nanoseconds.
    At(Nanos),
    /// Another node has to act first.
    Wait,
    /// It has no reading for the target.
    Ended,
}

impl SharedRun {
    /// What a node's clock shows for what the node does next.
    pub fn look(&mut self, node: NodeNo, next: Next) -> ClockAnswer
        requires is_open { IsOpen self.old node.0 }
        requires next { IsNext self.old node.0 next }
        ensures stays { Stays self.old self.new }
        ensures answer { Looks self.new node next result }
    {
        if self.bus.meeting() {
            return self.meet(node, next);
        }
        match self.pick(node, next) {
            Ok(reading) => ClockAnswer::At(reading),
            Err(ClockEnd) => ClockAnswer::Ended,
        }
    }

    // If the nodes meet.
    fn meet(&self, node: NodeNo, next: Next) -> ClockAnswer
        requires meeting { self.now.bus.meeting ≡ true }
        requires is_open { IsOpen self.now node.0 }
        requires next { IsNext self.now node.0 next }
        ensures { Looks self.now node next result }
    {
        let _next = next;
        match self.bus.meet(node) {
            Meet::Go { reading } => ClockAnswer::At(reading),
            Meet::Wait { node: _ } | Meet::Ended => ClockAnswer::Wait,
        }
    }

    // With list clocks.
    fn pick(&mut self, node: NodeNo, next: Next) -> Result<Nanos, ClockEnd>
        requires lists { (lists : List ClockState) × (self.old.clocks ≡ Lists lists) }
        requires is_open { IsOpen self.old node.0 }
        requires next { IsNext self.old node.0 next }
        ensures stays { Stays self.old self.new }
        ensures is_open { IsOpen self.new node.0 }
        ensures ok { IfOk result (IsReady self.new node next.action) }
        ensures err { OnErr result (EndsAt self.new.bus self.new.clocks node.0 next.target) }
    {
        self.lists[node.0 as usize].wait_for(next.target)
    }
}

/// The given lists of clocks, of which nothing is picked; `None` if the nodes meet.
pub fn fresh_lists(alloc: Global, clocks: &Clocks) -> Result<ItemList<ListClock>, NoMemory>
    ensures lists { IfOk result (λ lists. lists ≡ fresh_of clocks.now) }
    ensures order { IfOk result (All (λ clock. IsNonDecreasing clock.readings)) }
{
    match clocks {
        Clocks::Meet => Ok(ItemList::new(alloc)),
        Clocks::Lists(lists) => unpicked_lists(alloc, lists.as_slice()),
    }
}

fn unpicked_lists(alloc: Global, lists: &[ListClock]) -> Result<ItemList<ListClock>, NoMemory>
    ensures lists { IfOk result (λ fresh. fresh ≡ fresh_of (Lists lists.now)) }
    ensures order { IfOk result (All (λ clock. IsNonDecreasing clock.readings)) }
{
    let mut fresh = ItemList::new(alloc);
    for list in lists {
        fresh.push(unpicked_list(alloc, list)?)?;
    }
    Ok(fresh)
}

fn unpicked_list(alloc: Global, list: &ListClock) -> Result<ListClock, NoMemory>
    ensures list { IfOk result (λ fresh. fresh ≡ unpicked list.now.readings) }
    ensures order { IsNonDecreasing list.now.readings }
{
    let readings = ItemList::from_slice(alloc, list.readings())?;
    Ok(ListClock::new(readings))
}

/// Whether two lists of clocks have equal readings, whatever was picked of them.
pub fn same_lists(left: &[ListClock], right: &[ListClock]) -> bool
    ensures { IsTrue result → map (λ c. c.readings) left.now ≡ map (λ c. c.readings) right.now }
{
    if left.len() != right.len() {
        return false;
    }
    for place in 0..left.len() {
        if !left[place].same_list(&right[place]) {
            return false;
        }
    }
    true
}
