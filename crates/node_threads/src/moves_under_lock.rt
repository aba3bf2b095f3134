//! What a node does while it has the lock. Each call is an event of the bus machine, or notes how the part
//! of a node ended.
ghost use Rattle.std.specs.Prelude.{◌<◌, ◌≤◌, length, OnOk, Some};
ghost use Rattle.pals_base.specs.declared.limits.TheConstants.{READING};
ghost use Rattle.bus_machine.specs.Machine.{Start, Step, Send};
ghost use Rattle.node_threads.specs.proof.SharedCourses.{Stays, IsOpen, EndsAt, IsToStartIn, IsAwaitedIn, Allows};
ghost use Rattle.node_threads.specs.proof.OwnJobs.{IsOwn, GivesOwn};

use crate::clocks::ClockAnswer;
use crate::course::SharedRun;
use crate::node_end::NodeNote;
use bus_machine::NodeAction;
use pals_base::{Nanos, NodeNo};
use pals_bus::{BusError, DueEnd};
use pals_node::{Done, Job, StartEnd, StepEnd};

/// What a thread does with its node after a locked step.
#[derive(Drop)]
pub enum NextMove<J> {
    /// Runs a job, outside the lock.
    Work(J),
    /// Sleeps until others have advanced.
    Wait,
    /// Goes on at once: the node has sent its round.
    Again,
    /// Nothing: the node's part has ended.
    Over,
}

impl SharedRun {
    /// A node continues, if its part has not ended: to a job, to a wait, or to its end. It takes its next
    /// step at a reading of its clock.
    #[tactic(auto, using(crate::proofs::ChangesUnderLock::stays_on))]
    pub fn begin(&mut self, node: NodeNo) -> NextMove<Job>
        ensures stays { Stays self.old self.new }
        ensures own { GivesOwn self.new.bus.codes result }
    {
        if !self.is_open(node) {
            return NextMove::Over;
        }
        let Some(next) = self.bus.next(node) else {
            return self.recover(node);
        };
        let reading = match self.look(node, next) {
            ClockAnswer::At(reading) => reading,
            ClockAnswer::Wait => return NextMove::Wait,
            ClockAnswer::Ended => return self.note_end(node, next.target),
        };
        self.agreement();
        match next.action {
            NodeAction::Start { .. } => self.start(node, reading),
            NodeAction::Step { .. } => self.step(node, reading),
            NodeAction::Send { .. } => self.send(node, reading),
        }
    }

    /// Takes in a finished job, which has its node's code.
    pub fn hand_in(&mut self, done: Done)
        requires { IsOwn self.old.bus.codes done }
        ensures { Stays self.old self.new }
    {
        let node = done.node();
        if node.0 >= self.count() {
            return;
        }
        let _ = self.bus.finish_own(node, done);
    }

    // If a node's thread returned without its job, the job is run here.
    fn recover(&mut self, node: NodeNo) -> NextMove<Job>
        requires { node.0 < length self.old.bus.run.design.components }
        ensures stays { Stays self.old self.new }
        ensures own { GivesOwn self.new.bus.codes result }
    {
        let _ = self.bus.finish_here(node);
        NextMove::Again
    }

    // It is noted that the clock of a node has ended.
    fn note_end(&mut self, node: NodeNo, target: Nanos) -> NextMove<Job>
        requires is_open { IsOpen self.old node.0 }
        requires ended { EndsAt self.old.bus self.old.clocks node.0 target }
        ensures stays { Stays self.old self.new }
        ensures own { GivesOwn self.new.bus.codes result }
    {
        self.notes
            .set(node.0 as usize, NodeNote::ClockEnded { target });
        NextMove::Over
    }

    // A node takes the messages that are due, and starts its next round.
    #[tactic(auto, using(crate::proofs::ChangesUnderLock::stays_on))]
    fn start(&mut self, node: NodeNo, reading: Nanos) -> NextMove<Job>
        requires is_open { IsOpen self.old node.0 }
        requires waits { IsToStartIn self.old node reading }
        ensures stays { Stays self.old self.new }
        ensures own { GivesOwn self.new.bus.codes result }
    {
        if !self.is_awaited(node) {
            return NextMove::Wait;
        }
        match self.take(node, reading) {
            Ok(()) => {}
            Err(BusError::Stopped(_)) => return NextMove::Over,
            Err(BusError::Refused(_)) => return self.out_of_memory(node),
        }
        match self.bus.start(node, Some(reading)) {
            Ok(job) => NextMove::Work(job),
            Err(BusError::Refused(StartEnd::Memory)) => self.out_of_memory(node),
            Err(BusError::Stopped(_)) => NextMove::Over,
            Err(_) => NextMove::Again,
        }
    }

    // All messages that are due to a node arrive.
    fn take(&mut self, node: NodeNo, reading: Nanos) -> Result<(), DueEnd>
        requires is_open { IsOpen self.old node.0 }
        requires waits { IsToStartIn self.old node reading }
        requires awaited { IsAwaitedIn self.old node.0 }
        ensures stays { Stays self.old self.new }
        ensures is_open { OnOk result (IsOpen self.new node.0) }
        ensures begins { OnOk result (Allows self.new (Start node (Some reading))) }
    {
        self.bus.take_due(node, reading)
    }

    // A node starts the next step of its round.
    #[tactic(auto, using(crate::proofs::ChangesUnderLock::stays_on))]
    fn step(&mut self, node: NodeNo, reading: Nanos) -> NextMove<Job>
        requires is_open { IsOpen self.old node.0 }
        requires steps { Allows self.old (Step node (Some reading)) }
        ensures stays { Stays self.old self.new }
        ensures own { GivesOwn self.new.bus.codes result }
    {
        match self.bus.step(node, Some(reading)) {
            Ok(job) => NextMove::Work(job),
            Err(BusError::Refused(StepEnd::Memory)) => self.out_of_memory(node),
            Err(BusError::Stopped(_)) => NextMove::Over,
            Err(_) => NextMove::Again,
        }
    }

    // A node sends its round.
    fn send(&mut self, node: NodeNo, reading: Nanos) -> NextMove<Job>
        requires is_open { IsOpen self.old node.0 }
        requires sends { Allows self.old (Send node (Some reading)) }
        requires range { reading ≤ READING }
        ensures stays { Stays self.old self.new }
        ensures own { GivesOwn self.new.bus.codes result }
    {
        let _ = self.bus.send(node, Some(reading));
        NextMove::Again
    }

    // A node finds no memory, and the run is closed.
    fn out_of_memory(&mut self, node: NodeNo) -> NextMove<Job>
        requires { node.0 < length self.old.bus.run.design.components }
        ensures stays { Stays self.old self.new }
        ensures own { GivesOwn self.new.bus.codes result }
    {
        self.bus.close();
        self.notes.set(node.0 as usize, NodeNote::Memory);
        NextMove::Over
    }
}
