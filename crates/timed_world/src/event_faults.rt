//! Why a world refuses an event.
ghost use Rattle.std.specs.Prelude.{◌≡◌, ◌<◌, length, true};
ghost use Rattle.pals_runs.specs.declared.events_and_faults.Event.TheVariants as event;
ghost use Rattle.run_laws.specs.EventFaults.{fault_of, event_fault, is_named};
ghost use Rattle.timed_world.specs.proof.WorldValuesAndMoves.{world_of};

use crate::node_standing::too_soon;
use crate::world::World;
use pals_base::{LinkNo, NodeNo};
use pals_runs::{Event, EventFault, EventSubject};

impl World {
    /// The first row of the table of faults that applies to an event, or `None`.
    pub(crate) fn fault(&self, event: &Event) -> Option<EventFault>
        ensures { result ≡ fault_of self.now.bus.run (world_of self.now) event.now }
    {
        if !self.is_named(event) {
            return Some(EventFault::BadName);
        }
        self.event_fault(event)
    }

    // Whether there is one reading for each component, and what else the event names is the design's.
    fn is_named(&self, event: &Event) -> bool
        ensures { result ≡ is_named self.now.bus.run event.now }
    {
        let components = self.component_count();
        let links = self.link_count();
        match event {
            Event::Pass { readings, .. } => readings.len() == components,
            Event::Start(node) => (node.0 as usize) < components,
            Event::Step(node) => (node.0 as usize) < components,
            Event::Finish(node) => (node.0 as usize) < components,
            Event::Send(node) => (node.0 as usize) < components,
            Event::Arrive(link, _) => (link.0 as usize) < links,
            Event::Drop(link, _) => (link.0 as usize) < links,
            Event::Repeat(link, _) => (link.0 as usize) < links,
        }
    }

    fn event_fault(&self, event: &Event) -> Option<EventFault>
        requires named { is_named self.now.bus.run event.now ≡ true }
        ensures { result ≡ event_fault self.now.bus.run (world_of self.now) event.now }
    {
        match event {
            Event::Pass { time, readings } => self.fault_of_pass(*time, readings.as_slice()),
            Event::Start(node) => self.fault_of_start(*node),
            Event::Step(node) => self.fault_of_step(*node),
            Event::Finish(node) => self.fault_of_finish(*node),
            Event::Send(node) => self.fault_of_send(*node),
            Event::Arrive(link, round) => self.fault_of_arrival(*link, *round),
            Event::Drop(_, _) | Event::Repeat(_, _) => Some(EventFault::LossOrRepeat),
        }
    }

    fn fault_of_start(&self, node: NodeNo) -> Option<EventFault>
        requires { node.0 < length self.now.bus.run.design.components }
        ensures { result ≡ event_fault self.now.bus.run (world_of self.now) (event.Start node) }
    {
        self.standing(node).start_fault(self.plan(node))
    }

    fn fault_of_step(&self, node: NodeNo) -> Option<EventFault>
        requires { node.0 < length self.now.bus.run.design.components }
        ensures { result ≡ event_fault self.now.bus.run (world_of self.now) (event.Step node) }
    {
        self.standing(node).step_fault(self.plan(node))
    }

    fn fault_of_finish(&self, node: NodeNo) -> Option<EventFault>
        requires { node.0 < length self.now.bus.run.design.components }
        ensures { result ≡ event_fault self.now.bus.run (world_of self.now) (event.Finish node) }
    {
        let least = self.bus.design().gamma().alpha_min;
        self.standing(node)
            .finish_fault(self.plan(node), self.time, least)
    }

    fn fault_of_send(&self, node: NodeNo) -> Option<EventFault>
        requires { node.0 < length self.now.bus.run.design.components }
        ensures { result ≡ event_fault self.now.bus.run (world_of self.now) (event.Send node) }
    {
        self.standing(node).send_fault(self.plan(node))
    }

    fn fault_of_arrival(&self, link: LinkNo, round: u32) -> Option<EventFault>
        requires { link.0 < length self.now.bus.run.design.links }
        ensures { result ≡ event_fault self.now.bus.run (world_of self.now) (event.Arrive link round) }
    {
        if self.bus.in_flight(link, round).is_none() {
            return Some(EventFault::NoSuchMessage { link, round });
        }
        let least = self.bus.design().gamma().mu_min;
        let earliest = self.flight_since(link, round) + least;
        too_soon(EventSubject::Message(link, round), earliest, self.time)
    }
}
