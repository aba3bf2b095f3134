//! The events of a world.
ghost use Rattle.std.specs.Prelude.{◌≡◌, ◌⊎◌, ◌<◌, ◌++◌, [], ◌∷◌, length, Some, None, IfErr, OnOk, OnErr};
ghost use Rattle.std.specs.Prelude.{slice_index_or, slice_set};
ghost use Rattle.pals_runs.specs.declared.events_and_faults.Event.TheVariants as event;
ghost use Rattle.pals_runs.specs.declared.events_and_faults.EventFault.TheVariants as fault;
ghost use Rattle.pals_node.specs.declared.refusals.StartEnd.TheVariants as start;
ghost use Rattle.pals_node.specs.declared.refusals.StepEnd.TheVariants as step;
ghost use Rattle.pals_bus.specs.declared.bus_error.BusError.TheVariants.{Refused};
ghost use Rattle.pals_bus.specs.declared.bus_error.MessageError.TheVariants as message;
ghost use Rattle.run_laws.specs.EventFaults.{fault_of};
ghost use Rattle.timed_world.specs.proof.WorldValuesAndMoves.{Moves, world_of};

use crate::world::World;
use pals_base::{ItemList, LinkNo, Nanos, NoMemory, NodeNo};
use pals_bus::{BusStartEnd, BusStepEnd, LinkEnd};
use pals_runs::{Event, EventFault};
use std::alloc::AllocError;

impl World {
    /// Executes an event if it has no fault; otherwise returns the first row of the table of faults that
    /// applies. An error leaves the world unchanged.
    pub fn apply(&mut self, event: &Event) -> Result<(), EventFault>
        ensures fine { OnOk result (fault_of self.old.bus.run (world_of self.old) event.now ≡ None) }
        ensures moves { OnOk result (Moves self.old event.now self.new) }
        ensures same { OnErr result (self.new ≡ self.old) }
        ensures fault { IfErr result (λ why. (why ≡ fault.Memory)
            ⊎ (fault_of self.old.bus.run (world_of self.old) event.now ≡ Some why)) }
    {
        if let Some(why) = self.fault(event) {
            return Err(why);
        }
        self.go_on(event)?;
        Ok(())
    }

    // Does an event that has no fault.
    fn go_on(&mut self, event: &Event) -> Result<(), NoMemory>
        requires fine { fault_of self.old.bus.run (world_of self.old) event.now ≡ None }
        ensures ok { OnOk result (Moves self.old event.now self.new) }
        ensures same { OnErr result (self.new ≡ self.old) }
    {
        match event {
            Event::Pass { time, readings } => {
                self.pass(*time, readings.as_slice());
                Ok(())
            }
            Event::Start(node) => self.start(*node),
            Event::Step(node) => self.step(*node),
            Event::Finish(node) => {
                self.finish(*node);
                Ok(())
            }
            Event::Send(node) => self.send(*node),
            Event::Arrive(link, round) => self.arrive(*link, *round),
            Event::Drop(_, _) | Event::Repeat(_, _) => unreachable!(),
        }
    }

    // Time passes. Does not allocate.
    fn pass(&mut self, time: Nanos, readings: &[Nanos])
        requires fine { fault_of self.old.bus.run (world_of self.old) (event.Pass time readings.now) ≡ None }
        ensures { Moves self.old (event.Pass time readings.now) self.new }
    {
        self.time = time;
        self.readings.copy_from_slice(readings);
    }

    // A node starts its next round. The job of its first step is dropped, and a finish runs it.
    fn start(&mut self, node: NodeNo) -> Result<(), NoMemory>
        requires fine { fault_of self.old.bus.run (world_of self.old) (event.Start node) ≡ None }
        ensures ok { OnOk result (Moves self.old (event.Start node) self.new) }
        ensures same { OnErr result (self.new ≡ self.old) }
    {
        let reading = self.readings[node.0 as usize];
        if let Err(end) = self.bus.start(node, Some(reading)) {
            return Err(refused_start(end));
        }
        self.since.set(node.0 as usize, self.time);
        Ok(())
    }

    // A node starts its next step of the round. Its job is dropped too.
    fn step(&mut self, node: NodeNo) -> Result<(), NoMemory>
        requires fine { fault_of self.old.bus.run (world_of self.old) (event.Step node) ≡ None }
        ensures ok { OnOk result (Moves self.old (event.Step node) self.new) }
        ensures same { OnErr result (self.new ≡ self.old) }
    {
        let reading = self.readings[node.0 as usize];
        if let Err(end) = self.bus.step(node, Some(reading)) {
            return Err(refused_step(end));
        }
        self.since.set(node.0 as usize, self.time);
        Ok(())
    }

    // A node finishes its outstanding step. Does not allocate.
    fn finish(&mut self, node: NodeNo)
        requires fine { fault_of self.old.bus.run (world_of self.old) (event.Finish node) ≡ None }
        ensures { Moves self.old (event.Finish node) self.new }
    {
        let last = self.standing(node).is_last_sent(self.plan(node));
        if let Err(_end) = self.bus.finish_here(node) {
            unreachable!();
        }
        self.since.set(node.0 as usize, self.time);
        if last {
            self.ready.set(node.0 as usize, self.time);
        }
    }

    // A node sends its round.
    fn send(&mut self, node: NodeNo) -> Result<(), NoMemory>
        requires fine { fault_of self.old.bus.run (world_of self.old) (event.Send node) ≡ None }
        ensures ok { OnOk result (Moves self.old (event.Send node) self.new) }
        ensures same { OnErr result (self.new ≡ self.old) }
    {
        let at = node.0 as usize;
        let reading = self.readings[at];
        let held = self.standing(node).is_held();
        add_moment(&mut self.sent_at, at, self.time)?;
        if let Err(_end) = self.bus.send(node, Some(reading)) {
            unreachable!();
        }
        if held {
            self.since.set(at, self.time);
        }
        Ok(())
    }

    // A link's message of a round arrives.
    fn arrive(&mut self, link: LinkNo, round: u32) -> Result<(), NoMemory>
        requires fine { fault_of self.old.bus.run (world_of self.old) (event.Arrive link round) ≡ None }
        ensures ok { OnOk result (Moves self.old (event.Arrive link round) self.new) }
        ensures same { OnErr result (self.new ≡ self.old) }
    {
        if let Err(end) = self.bus.deliver(link, round, None) {
            return Err(refused_arrival(end));
        }
        Ok(())
    }
}

// Appends a time to the times of a node. If memory runs out, nothing changes.
fn add_moment(
    moments: &mut ItemList<ItemList<Nanos>>,
    at: usize,
    time: Nanos,
) -> Result<(), NoMemory>
    requires { at < length moments.old }
    ensures ok { OnOk result (moments.new ≡ slice_set moments.old at (slice_index_or moments.old at [] ++ time ∷ [])) }
    ensures same { OnErr result (moments.new ≡ moments.old) }
{
    moments[at].push(time)
}

// What a start without a fault can be refused for.
fn refused_start(_end: BusStartEnd) -> NoMemory
    requires { _end ≡ Refused start.Memory }
{
    AllocError
}

// What a step without a fault can be refused for.
fn refused_step(_end: BusStepEnd) -> NoMemory
    requires { _end ≡ Refused step.Memory }
{
    AllocError
}

// What an arrival without a fault can be refused for.
fn refused_arrival(_end: LinkEnd) -> NoMemory
    requires { _end ≡ Refused message.Memory }
{
    AllocError
}
