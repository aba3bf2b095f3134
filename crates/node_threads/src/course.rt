//! The course of a run: the bus, the lists of its nodes' clocks, and a record of each node.
ghost use Rattle.std.specs.Prelude.{◌≡◌, ◌<◌, ◌≤◌, length, false, None, IsTrue, IfOk};
ghost use Rattle.pals_base.specs.declared.limits.TheConstants.{COMPONENTS};
ghost use Rattle.bus_machine.specs.proof.AgreementLaws.{IsRunOf};
ghost use Rattle.pals_bus.specs.proof.Meeting.{HasEnded};
ghost use Rattle.pals_bus.specs.proof.OpeningNodes.{opening_bus};
ghost use Rattle.run_laws.specs.Runs.{target_of, HaveFreshClocks, Runs};
ghost use Rattle.node_threads.specs.proof.SharedCourses.{clocks_of, IsCourse, IsOf, IsOpen, IsDone, next_in, is_send};
ghost use Rattle.node_threads.specs.proof.NodeEndsAndOutcomes.{AllEnded, EndsFit, end_in, phase_end, closed_end};

use crate::clocks::same_lists;
use crate::node_end::{NodeEnd, NodeNote};
use bus_machine::{Next, NodeAction};
use pals_base::{ItemList, Nanos, NoMemory, NodeNo};
use pals_bus::Bus;
use pals_clock::ListClock;
use pals_model::Design;
use pals_runs::Phase;
use std::alloc::Global;
use std::marker::Model;

/// The state that the nodes share under the lock. Contracts see the bus, the clocks of its nodes and the
/// record of each node. Its journal is always that of a run whose nodes follow their clocks, so each law
/// of such runs holds whenever the lock is free.
#[derive(Drop)]
pub struct SharedRun {
    pub(crate) bus: Bus,
    // One list for each node, or `None` if the nodes meet.
    pub(crate) lists: ItemList<ListClock>,
    pub(crate) notes: ItemList<NodeNote>,
}

impl Model for SharedRun {
    ghost use Rattle.node_threads.specs.proof.SharedCourses.{CourseValue, course_of, IsCourse};

    ghost Value = { CourseValue };

    ghost use Rattle.node_threads.specs.proof.Codes.{course_code};

    ghost coded = { course_code };

    ghost view = { λ c. course_of c.bus c.lists c.notes };

    ghost invariant = { λ c. IsCourse (course_of c.bus c.lists c.notes) };
}

impl SharedRun {
    /// A run before its first event, with lists of which nothing is picked, or without lists if the
    /// nodes meet.
    pub fn new(alloc: Global, bus: Bus, lists: ItemList<ListClock>) -> Result<SharedRun, NoMemory>
        requires opening { bus ≡ opening_bus bus.run bus.codes bus.meeting }
        requires clocks { HaveFreshClocks bus.run (clocks_of bus.meeting lists) }
        ensures { IfOk result (λ c. (c.bus ≡ bus) × (c.clocks ≡ clocks_of bus.meeting lists)) }
    {
        bus.agreement();
        let notes = vec![in alloc; NodeNote::Open; bus.design().components().len()]?;
        Ok(SharedRun {
            bus,
            lists,
            notes: ItemList::from_vec(notes),
        })
    }

    /// The invariant of every course: it is a run whose nodes follow their clocks, and the records of
    /// them are true.
    pub fn agreement(&self)
        ensures { IsCourse self.now }
    {
        let _closed = self.bus.closed();
    }

    /// How many nodes it has.
    pub fn count(&self) -> u32
        ensures count { result ≡ length self.now.bus.run.design.components }
        ensures few { result ≤ COMPONENTS }
    {
        self.bus.design().components().len() as u32
    }

    /// Whether it belongs to the same run as another one, with the same lists.
    pub fn is_same(&self, other: &SharedRun) -> bool
        ensures { IsTrue result → IsOf other.now.bus other.now.clocks self.now }
    {
        self.bus.same_run(&other.bus) && same_lists(self.lists.as_slice(), other.lists.as_slice())
    }

    /// Whether the part of each node has ended.
    pub fn is_over(&self) -> bool
        ensures { IsTrue result → AllEnded self.now }
    {
        for node in 0..self.count() {
            if self.end_of(NodeNo(node)).is_none() {
                return false;
            }
        }
        true
    }

    /// How the part of each node ended.
    pub fn ends(&self, alloc: Global) -> Result<ItemList<NodeEnd>, NoMemory>
        requires { AllEnded self.now }
        ensures { IfOk result (λ ends. EndsFit self.now.bus self.now.clocks ends) }
    {
        self.agreement();
        let mut ends = ItemList::new(alloc);
        for node in 0..self.count() {
            let Some(end) = self.end_of(NodeNo(node)) else {
                unreachable!();
            };
            ends.push(end)?;
        }
        Ok(ends)
    }

    /// The bus, with the journal and the state of a run.
    pub fn into_bus(self) -> Bus
        ensures bus { result ≡ self.bus }
        ensures rules { IsRunOf self.bus.run }
        ensures runs { Runs self.bus.run self.clocks self.bus.journal self.bus.state }
    {
        self.bus
    }

    // How the part of a node ended, or `None` if it has not.
    fn end_of(&self, node: NodeNo) -> Option<NodeEnd>
        requires { node.0 < length self.now.bus.run.design.components }
        ensures { result ≡ end_in self.now node.0 }
    {
        match self.notes[node.0 as usize] {
            NodeNote::ClockEnded { target } => Some(NodeEnd::ClockEnded { target }),
            NodeNote::Memory => Some(NodeEnd::Memory),
            NodeNote::Open => end_by(
                self.bus.phase(node),
                self.bus.stop().is_some(),
                self.bus.closed(),
            ),
        }
    }

    /// Whether a node may continue: its part has not ended, there is no stop, and the run is not closed.
    pub fn is_open(&self, node: NodeNo) -> bool
        ensures goes { IsTrue result → IsOpen self.now node.0 }
        ensures over { result ≡ false → IsOpen self.now node.0 → IsDone self.now node.0 }
    {
        node.0 < self.count()
            && matches!(&self.notes[node.0 as usize], NodeNote::Open)
            && !self.is_stopped()
            && !matches!(&self.bus.phase(node), Phase::Done)
    }

    /// Whether there is a stop, or the run is closed.
    pub fn is_stopped(&self) -> bool
        ensures ended { IsTrue result → HasEnded self.now.bus }
        ensures goes { result ≡ false → (self.now.bus.state.stop ≡ None) × (self.now.bus.closed ≡ false) }
    {
        self.bus.closed() || self.bus.stop().is_some()
    }

    /// Whether the nodes meet.
    pub fn meeting(&self) -> bool
        ensures { result ≡ self.now.bus.meeting }
    {
        self.bus.meeting()
    }

    /// The design of the run.
    pub fn design(&self) -> &Design
        ensures { result.now ≡ self.now.bus.run.design }
    {
        self.bus.design()
    }

    /// The earliest reading, in nanoseconds, of a node's present or next step. `None` if the node is
    /// done.
    pub fn target(&self, node: NodeNo) -> Option<Nanos>
        ensures { node.0 < length self.now.bus.run.design.components
            → result ≡ target_of self.now.bus.run self.now.bus.state node.0 }
    {
        if node.0 >= self.count() {
            return None;
        }
        self.bus.target(node)
    }

    /// Whether a node sends next.
    pub fn is_to_send(&self, node: NodeNo) -> bool
        ensures { node.0 < length self.now.bus.run.design.components → result ≡ is_send (next_in self.now node.0) }
    {
        node.0 < self.count() && is_send(self.bus.next(node))
    }
}

// Whether the next step is a send.
fn is_send(next: Option<Next>) -> bool
    ensures { result ≡ is_send next }
{
    match next {
        Some(
            Next {
                action: NodeAction::Send { round: _ },
                target: _,
            },
        ) => true,
        _ => false,
    }
}

// How the part of a node without a recorded end ended, or `None` if it has not.
fn end_by(phase: Phase, stopped: bool, closed: bool) -> Option<NodeEnd>
    ensures { result ≡ phase_end phase stopped closed }
{
    match phase {
        Phase::Done => Some(NodeEnd::Finished),
        Phase::Waiting | Phase::Running(_) | Phase::Between(_) | Phase::Holding => {
            if stopped {
                return Some(NodeEnd::Stopped);
            }
            closed_end(closed)
        }
    }
}

// How it ended without a stop: only if the run is closed.
fn closed_end(closed: bool) -> Option<NodeEnd>
    ensures { result ≡ closed_end closed }
{
    if closed { Some(NodeEnd::Closed) } else { None }
}
