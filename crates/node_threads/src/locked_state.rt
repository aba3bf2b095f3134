//! The state under the lock: the course of the run, and who sleeps until it advances. A thread that takes the lock
//! knows only the type invariant of the course, and the step codes of the run.
ghost use Rattle.std.specs.Prelude.{◌≡◌, ℕ, true, IsTrue};
ghost use Rattle.run_laws.specs.Runs.{IsLeast};
ghost use Rattle.node_threads.specs.proof.SharedCourses.{Stays, IsOpen, IsDone};
ghost use Rattle.node_threads.specs.proof.Sleepers.{slot_at, Waits};
ghost use Rattle.node_threads.specs.proof.OwnJobs.{GivesOwn};

use crate::course::SharedRun;
use crate::moves_under_lock::NextMove;
use crate::own_jobs::{OwnDone, OwnJob};
use crate::run_codes::RunCodes;
use crate::sleepers::Sleepers;
use crate::wake_list::Sleeper;
use pals_base::NodeNo;
use pals_node::Job;
use std::marker::PhantomData;

/// The course of a run with these step codes, and who sleeps.
#[derive(Drop)]
pub struct Locked<C: RunCodes> {
    course: SharedRun,
    sleepers: Sleepers,
    run: PhantomData<C>,
    ghost codes: { course.bus.codes ≡ C.codes },
}

impl<C: RunCodes> Locked<C> {
    /// A course whose hour is the least target, and who sleeps.
    pub fn new(course: SharedRun, mut sleepers: Sleepers) -> Locked<C>
        requires codes { course.bus.codes ≡ C.codes }
        ensures course { result.course ≡ course }
        ensures hour { IsLeast course.bus.run course.bus.state result.sleepers.hour }
        ensures others { result.sleepers ≡ record sleepers { hour = result.sleepers.hour } }
    {
        sleepers.move_hour(&course);
        Locked {
            course,
            sleepers,
            run: PhantomData,
        }
    }

    /// The course, once all threads have ended.
    pub fn into_course(self) -> SharedRun
        ensures { result ≡ self.course }
    {
        self.course
    }

    /// The next turn of a node: its finished job comes in, it sends its round if that is next, and then it
    /// continues to a job, to a wait, or to its end. The second answer is whom to wake once the lock is free: one
    /// thread at most, which wakes the next one in its own turn, so that they do not all ask for the lock at once.
    /// If a job comes in while others have to be woken, it is nobody: a thread that is on its way to its turn will
    /// wake the next one.
    #[tactic(auto, using(crate::proofs::ChangesUnderLock::stays_on))]
    pub fn turn(
        &mut self,
        node: NodeNo,
        done: Option<OwnDone<C>>,
    ) -> (NextMove<OwnJob<C>>, Option<Sleeper>)
        ensures { Stays self.old.course self.new.course }
    {
        self.sleepers.rise(node);
        let tells = done.is_none() || !self.sleepers.has_wakes();
        if let Some(done) = done {
            self.finish(done);
        }
        self.send_first(node);
        let turn = if self.sleepers.is_early(&self.course, node) {
            NextMove::Wait
        } else {
            self.begin(node)
        };
        self.wake_others(node, &turn);
        let wake = if tells {
            self.sleepers.take_wake()
        } else {
            None
        };
        (turn, wake)
    }

    /// The next turn of a node that the calling thread has.
    pub fn turn_of_caller(&mut self, node: NodeNo) -> (NextMove<OwnJob<C>>, Option<Sleeper>)
        ensures { Stays self.old.course self.new.course }
    {
        if self.sleepers.is_of_caller(node) {
            self.turn(node, None)
        } else {
            (NextMove::Wait, None)
        }
    }

    /// The job of a node that the calling thread has comes in.
    pub fn finish_of_caller(&mut self, done: OwnDone<C>) -> Option<Sleeper>
        ensures { Stays self.old.course self.new.course }
    {
        self.finish(done);
        self.sleepers.take_wake()
    }

    /// The calling thread has a node.
    pub fn give_to_caller(&mut self, node: NodeNo)
        ensures { self.new.course ≡ self.old.course }
    {
        self.sleepers.give_to_caller(node);
    }

    /// Whether the thread of a node sleeps on.
    pub fn sleeps(&mut self, node: NodeNo) -> bool
        ensures same { self.new.course ≡ self.old.course }
        ensures waits { IsTrue result → Waits self.old.course self.old.sleepers.hour node.0 }
    {
        self.sleepers.sleeps(&self.course, node)
    }

    /// Whether the calling thread sleeps on: it has a node that waits, and none that need not.
    pub fn caller_sleeps(&mut self) -> bool
        ensures { self.new.course ≡ self.old.course }
    {
        let mut some = false;
        for number in 0..self.course.count() {
            let node = NodeNo(number);
            if self.sleepers.is_of_caller(node) && self.course.is_open(node) {
                if !self.sleeps(node) {
                    return false;
                }
                some = true;
            }
        }
        some
    }

    /// Whether no node of the calling thread can continue.
    pub fn caller_is_over(&self) -> bool
        ensures { IsTrue result
            → (node : ℕ) → IsOpen self.now.course node → (slot_at self.now.sleepers.threads node).of_caller ≡ true
            → IsDone self.now.course node }
    {
        self.sleepers.caller_is_over(&self.course)
    }

    // A node continues, if its part has not ended.
    fn begin(&mut self, node: NodeNo) -> NextMove<OwnJob<C>>
        ensures { Stays self.old.course self.new.course }
    {
        own_move(self.course.begin(node))
    }

    // A node's job comes in.
    #[tactic(auto, using(crate::proofs::ChangesUnderLock::stays_on))]
    fn finish(&mut self, done: OwnDone<C>)
        ensures { Stays self.old.course self.new.course }
    {
        let done = done.into_done();
        let node = done.node();
        self.course.hand_in(done);
        self.move_hour(node);
    }

    // A node that sends next does so, unless it waits for the hour, and the threads that waited for that are woken.
    #[tactic(auto, using(crate::proofs::ChangesUnderLock::stays_on))]
    fn send_first(&mut self, node: NodeNo)
        ensures { Stays self.old.course self.new.course }
    {
        if self.course.is_to_send(node) && !self.sleepers.is_early(&self.course, node) {
            let turn = self.begin(node);
            self.wake_others(node, &turn);
        }
    }

    // The threads that waited for what a node has done are woken.
    fn wake_others(&mut self, node: NodeNo, turn: &NextMove<OwnJob<C>>)
        ensures { Stays self.old.course self.new.course }
    {
        match turn {
            NextMove::Again => {
                self.sleepers.wake_targets(&self.course, node);
                self.move_hour(node);
            }
            NextMove::Over => self.sleepers.wake_behind(&self.course, node),
            NextMove::Wait | NextMove::Work(_) => {}
        }
    }

    // If the nodes meet: once the last node has left the hour, the hour moves. Nodes that send then
    // do so here, so that no thread is woken only to send; if no node is at the hour then, it moves once
    // more. All threads whose nodes need not wait any more are woken.
    fn move_hour(&mut self, node: NodeNo)
        ensures { Stays self.old.course self.new.course }
    {
        if !self.sleepers.is_hour_over(&self.course, node) {
            return;
        }
        self.sleepers.move_hour(&self.course);
        self.send_at_hour();
        if !self.sleepers.some_at_hour(&self.course) {
            self.sleepers.move_hour(&self.course);
        }
        self.sleepers.wake_all_ready(&self.course);
    }

    // The nodes whose target the hour has reached, and that send next, do so.
    #[tactic(auto, using(crate::proofs::ChangesUnderLock::stays_on))]
    fn send_at_hour(&mut self)
        ensures { Stays self.old.course self.new.course }
    {
        for number in 0..self.course.count() {
            self.send(NodeNo(number));
        }
    }

    // A node that sends next does so, where the hour has reached its target.
    fn send(&mut self, node: NodeNo)
        ensures { Stays self.old.course self.new.course }
    {
        if self.sleepers.is_at_hour(&self.course, node) && self.course.is_to_send(node) {
            let _sent = self.begin(node);
        }
    }
}

// A move whose job, if there is one, has its node's code.
fn own_move<C: RunCodes>(turn: NextMove<Job>) -> NextMove<OwnJob<C>>
    requires { GivesOwn C.codes turn }
{
    match turn {
        NextMove::Work(job) => NextMove::Work(OwnJob::new(job)),
        NextMove::Wait => NextMove::Wait,
        NextMove::Again => NextMove::Again,
        NextMove::Over => NextMove::Over,
    }
}
