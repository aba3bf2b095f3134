//! Why a world rejects that time passes.
ghost use Rattle.std.specs.Prelude.{◌≡◌, ◌<◌, length, map};
ghost use Rattle.std.specs.List.{enumerate_from};
ghost use Rattle.pals_base.specs.UpwardNumbers.{upwards};
ghost use Rattle.run_laws.specs.EventFaults.{first_of, clock_back, clock_apart, node_past, link_past, pass_fault, past};
ghost use Rattle.timed_world.specs.proof.MessagesPastDeadline.{flying_past};
ghost use Rattle.timed_world.specs.proof.WorldValuesAndMoves.{world_of};

use crate::world::World;
use pals_base::{LinkNo, Nanos, NodeNo};
use pals_runs::{EventFault, EventSubject};

impl World {
    /// The first row of the table of faults that fits a passing of time, each row over all nodes.
    pub(crate) fn fault_of_pass(&self, time: Nanos, readings: &[Nanos]) -> Option<EventFault>
        requires { length readings.now ≡ length self.now.bus.run.design.components }
        ensures { result ≡ pass_fault self.now.bus.run (world_of self.now) time readings.now }
    {
        if time < self.time {
            return Some(EventFault::TimeBack { time });
        }
        if let Some(why) = self.clock_back(readings) {
            return Some(why);
        }
        if let Some(why) = self.clock_apart(time, readings) {
            return Some(why);
        }
        if let Some(why) = self.late_node(time) {
            return Some(why);
        }
        self.late_message(time)
    }

    // The first reading that is less than before.
    fn clock_back(&self, readings: &[Nanos]) -> Option<EventFault>
        requires { length readings.now ≡ length self.now.bus.run.design.components }
        ensures { result ≡ first_of (map (clock_back (world_of self.now)) (enumerate_from 0 readings.now)) }
    {
        let before = self.readings.as_slice();
        for index in 0..self.component_count() {
            let reading = readings[index];
            if reading < before[index] {
                let node = NodeNo(index as u32);
                return Some(EventFault::ClockBack { node, reading });
            }
        }
        None
    }

    // The first reading that is as far from the time as the skew, or farther.
    fn clock_apart(&self, time: Nanos, readings: &[Nanos]) -> Option<EventFault>
        requires { length readings.now ≡ length self.now.bus.run.design.components }
        ensures { result ≡ first_of (map (clock_apart self.now.bus.run time) (enumerate_from 0 readings.now)) }
    {
        let eps = self.bus.design().gamma().eps;
        for index in 0..self.component_count() {
            let reading = readings[index];
            if eps <= reading.abs_diff(time) {
                let node = NodeNo(index as u32);
                return Some(EventFault::ClockApart { node, reading });
            }
        }
        None
    }

    // The first node whose last allowed time is past.
    fn late_node(&self, time: Nanos) -> Option<EventFault>
        ensures { result ≡ first_of (map (node_past self.now.bus.run (world_of self.now) time)
            (upwards 0 (length self.now.bus.run.design.components))) }
    {
        for index in 0..self.component_count() {
            let node = NodeNo(index as u32);
            if let Some(why) = self.node_past(node, time) {
                return Some(why);
            }
        }
        None
    }

    fn node_past(&self, node: NodeNo, time: Nanos) -> Option<EventFault>
        requires { node.0 < length self.now.bus.run.design.components }
        ensures { result ≡ node_past self.now.bus.run (world_of self.now) time node.0 }
    {
        let gamma = self.bus.design().gamma();
        let last = self.standing(node).last_time(self.plan(node), &gamma);
        past(time, EventSubject::Node(node), last)
    }

    // The first message whose last allowed time is past, link by link.
    fn late_message(&self, time: Nanos) -> Option<EventFault>
        ensures { result ≡ first_of (map (link_past self.now.bus.run (world_of self.now) time)
            (upwards 0 (length self.now.bus.run.design.links))) }
    {
        for index in 0..self.link_count() {
            let link = LinkNo(index as u32);
            if let Some(why) = self.link_past(link, time) {
                return Some(why);
            }
        }
        None
    }

    // At most one copy is in flight on a link: of the last round that its target has started, or of the
    // next one.
    fn link_past(&self, link: LinkNo, time: Nanos) -> Option<EventFault>
        requires { link.0 < length self.now.bus.run.design.links }
        ensures { result ≡ link_past self.now.bus.run (world_of self.now) time link.0 }
    {
        let target = self.bus.design().links()[link.0 as usize].target;
        let count = self.bus.count(target);
        if let Some(why) = self.flying_past(link, count.saturating_sub(1), time) {
            return Some(why);
        }
        self.flying_past(link, count, time)
    }

    // A message that is in flight beyond its last allowed time.
    fn flying_past(&self, link: LinkNo, round: u32, time: Nanos) -> Option<EventFault>
        requires { link.0 < length self.now.bus.run.design.links }
        ensures { result ≡ flying_past self.now.bus.run (world_of self.now) time link.0 round }
    {
        if self.bus.in_flight(link, round).is_none() {
            return None;
        }
        let most = u128::from(self.bus.design().gamma().mu_max);
        let last = u128::from(self.flight_since(link, round)) + most;
        past(time, EventSubject::Message(link, round), Some(last))
    }
}

// A fault where the time is past the last one that is allowed.
fn past(time: Nanos, subject: EventSubject, last: Option<u128>) -> Option<EventFault>
    ensures { result ≡ past time subject last }
{
    match last {
        None => None,
        Some(last) => {
            if last < u128::from(time) {
                let last = last as u64;
                return Some(EventFault::PastDeadline { subject, last });
            }
            None
        }
    }
}
