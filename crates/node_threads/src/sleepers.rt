//! Who sleeps until the course of a run advances.
ghost use Rattle.std.specs.Prelude.{◌≡◌, ◌<◌, ◌≤◌, ℕ, length, replicate, IsTrue, IfOk, IfSome, Some, true, false};
ghost use Rattle.run_laws.specs.Runs.{IsLeast};
ghost use Rattle.node_threads.specs.proof.SharedCourses.{IsOpen, IsDone};
ghost use Rattle.node_threads.specs.declared.wake_list.Sleeper.{Sleeper};
ghost use Rattle.node_threads.specs.proof.Sleepers.{no_wakes, is_to_wake, without_sleeper, free_slot, slot_at, with_slot};
ghost use Rattle.node_threads.specs.proof.Sleepers.{IsAbove, IsHourOver, Waits, Rouses};

use crate::course::SharedRun;
use crate::wake_list::{Sleeper, WakeList};
use pals_base::limits::READING;
use pals_base::{ItemList, Nanos, NoMemory, NodeNo};
use std::alloc::Global;

/// Whether the calling thread has a node, and whether the thread that has it sleeps.
#[derive(Clone, Copy)]
pub struct ThreadSlot {
    of_caller: bool,
    sleeps: bool,
}

/// Who sleeps, and who is to be woken once the lock is free.
#[derive(Drop)]
pub struct Sleepers {
    threads: ItemList<ThreadSlot>,
    // If the nodes meet, the least target at the last search, in nanoseconds.
    hour: Nanos,
    wakes: WakeList,
}

impl Sleepers {
    /// Nobody sleeps, and each of `count` nodes has a thread of its own.
    pub fn new(alloc: Global, count: u32) -> Result<Sleepers, NoMemory>
        ensures { IfOk result (λ s. s ≡ record { threads = replicate count free_slot; hour = 0; wakes = no_wakes }) }
    {
        let slot = ThreadSlot {
            of_caller: false,
            sleeps: false,
        };
        let threads = vec![in alloc; slot; count as usize]?;
        Ok(Sleepers {
            threads: ItemList::from_vec(threads),
            hour: 0,
            wakes: WakeList::none(),
        })
    }

    /// The calling thread has a node.
    pub fn give_to_caller(&mut self, node: NodeNo)
        ensures { self.new ≡ with_slot self.old node.0
            (record { of_caller = true; sleeps = (slot_at self.old.threads node.0).sleeps }) }
    {
        let sleeps = self.slot(node).sleeps;
        self.put(
            node,
            ThreadSlot {
                of_caller: true,
                sleeps,
            },
        );
    }

    /// Whether the calling thread has a node.
    pub fn is_of_caller(&self, node: NodeNo) -> bool
        ensures { result ≡ (slot_at self.now.threads node.0).of_caller }
    {
        self.slot(node).of_caller
    }

    /// Whether the thread of a node sleeps on, which is noted.
    pub fn sleeps(&mut self, course: &SharedRun, node: NodeNo) -> bool
        ensures noted { self.new ≡ with_slot self.old node.0
            (record { of_caller = (slot_at self.old.threads node.0).of_caller; sleeps = result }) }
        ensures waits { IsTrue result → Waits course.now self.old.hour node.0 }
    {
        let sleeps = self.must_wait(course, node);
        let of_caller = self.slot(node).of_caller;
        self.put(node, ThreadSlot { of_caller, sleeps });
        sleeps
    }

    /// Whether no node of the calling thread can continue.
    pub fn caller_is_over(&self, course: &SharedRun) -> bool
        ensures { IsTrue result → (node : ℕ) → IsOpen course.now node → (slot_at self.now.threads node).of_caller ≡ true
            → IsDone course.now node }
    {
        for number in 0..course.count() {
            if !self.is_over(course, NodeNo(number)) {
                return false;
            }
        }
        true
    }

    // Whether a node is not the calling thread's, or can't continue.
    fn is_over(&self, course: &SharedRun, node: NodeNo) -> bool
        ensures { IsTrue result → IsOpen course.now node.0 → (slot_at self.now.threads node.0).of_caller ≡ true
            → IsDone course.now node.0 }
    {
        !self.is_of_caller(node) || !course.is_open(node)
    }

    /// Whether anybody may have to be woken.
    pub fn has_wakes(&self) -> bool
        ensures { result ≡ self.now.wakes.any }
    {
        self.wakes.any()
    }

    /// One thread that is to be woken, which then is noted no longer.
    pub fn take_wake(&mut self) -> Option<Sleeper>
        ensures taken { IfSome result (λ sleeper. is_to_wake self.old.wakes sleeper ≡ true) }
        ensures rest { self.new ≡ record self.old { wakes = without_sleeper self.old.wakes result } }
    {
        self.wakes.take()
    }

    /// The thread of a node has a turn: it need not be woken.
    pub fn rise(&mut self, node: NodeNo)
        ensures { self.new ≡ record self.old { wakes = without_sleeper self.old.wakes (Some (Sleeper.Node node.0)) } }
    {
        self.wakes.remove(node.0 as usize);
    }

    // The slot of a node.
    fn slot(&self, node: NodeNo) -> ThreadSlot
        ensures { result ≡ slot_at self.now.threads node.0 }
    {
        match self.threads.get(node.0 as usize) {
            Some(slot) => *slot,
            None => ThreadSlot {
                of_caller: false,
                sleeps: false,
            },
        }
    }

    // A node has this slot from now on.
    fn put(&mut self, node: NodeNo, slot: ThreadSlot)
        ensures { self.new ≡ with_slot self.old node.0 slot }
    {
        if (node.0 as usize) < self.threads.len() {
            self.threads.set(node.0 as usize, slot);
        }
    }

    // Whether a node has to wait for others.
    fn must_wait(&self, course: &SharedRun, node: NodeNo) -> bool
        ensures { IsTrue result → Waits course.now self.now.hour node.0 }
    {
        if course.meeting() {
            return self.is_early(course, node);
        }
        course.is_open(node) && course.waits_for_source(node)
    }

    /// If the nodes meet: whether a node that continues has a target that the hour has not reached.
    pub fn is_early(&self, course: &SharedRun, node: NodeNo) -> bool
        ensures { IsTrue result → Waits course.now self.now.hour node.0 }
    {
        course.meeting() && course.is_open(node) && !self.is_at_hour(course, node)
    }

    // Wakes the thread that has a node, where it sleeps.
    fn wake(&mut self, node: NodeNo)
        ensures awake { (slot_at self.new.threads node.0).sleeps ≡ false }
        ensures rouses { Rouses self.old self.new }
    {
        let slot = self.slot(node);
        if !slot.sleeps {
            return;
        }
        self.wakes.add(node.0 as usize, slot.of_caller);
        self.put(
            node,
            ThreadSlot {
                of_caller: slot.of_caller,
                sleeps: false,
            },
        );
    }

    /// The part of a node has ended. At a stop or a close all sleeping threads are woken, and else the ones
    /// that waited for this node.
    pub fn wake_behind(&mut self, course: &SharedRun, node: NodeNo)
        ensures { Rouses self.old self.new }
    {
        if !course.is_stopped() {
            return self.wake_targets(course, node);
        }
        for number in 0..course.count() {
            self.wake(NodeNo(number));
        }
    }

    /// With list clocks: wakes the threads that waited for a node, where they wait for no other.
    pub fn wake_targets(&mut self, course: &SharedRun, node: NodeNo)
        ensures { Rouses self.old self.new }
    {
        if course.meeting() {
            return;
        }
        for link in course.design().links() {
            if link.source.0 == node.0 {
                self.wake_ready(course, link.target);
            }
        }
    }

    // Wakes the thread that has a node, where it sleeps and the node need not wait.
    fn wake_ready(&mut self, course: &SharedRun, node: NodeNo)
        ensures { Rouses self.old self.new }
    {
        if self.slot(node).sleeps && !self.must_wait(course, node) {
            self.wake(node);
        }
    }

    /// If the nodes meet: whether a node has left the hour, and was the last one at it.
    pub fn is_hour_over(&self, course: &SharedRun, node: NodeNo) -> bool
        ensures { IsTrue result → IsHourOver course.now self.now.hour }
    {
        // The last node is mostly the last to leave, so it is asked first.
        let last = NodeNo(course.count().saturating_sub(1));
        course.meeting()
            && !self.is_at_hour(course, node)
            && !self.is_at_hour(course, last)
            && !self.some_at_hour(course)
    }

    /// The hour moves to the least target.
    pub fn move_hour(&mut self, course: &SharedRun)
        ensures hour { IsLeast course.now.bus.run course.now.bus.state self.new.hour }
        ensures others { self.new ≡ record self.old { hour = self.new.hour } }
    {
        self.hour = least_target(course);
    }

    /// Wakes all threads that sleep though their node need not wait.
    pub fn wake_all_ready(&mut self, course: &SharedRun)
        ensures { Rouses self.old self.new }
    {
        for number in 0..course.count() {
            self.wake_ready(course, NodeNo(number));
        }
    }

    /// Whether the hour has reached the target of a node that is not done.
    pub fn is_at_hour(&self, course: &SharedRun, node: NodeNo) -> bool
        ensures { result ≡ false → node.0 < length course.now.bus.run.design.components
            → IsAbove course.now.bus.run course.now.bus.state self.now.hour node.0 }
    {
        match course.target(node) {
            None => false,
            Some(target) => target <= self.hour,
        }
    }

    /// Whether the hour has reached the target of some node that is not done.
    pub fn some_at_hour(&self, course: &SharedRun) -> bool
        ensures { result ≡ false → IsHourOver course.now self.now.hour }
    {
        for number in 0..course.count() {
            if self.is_at_hour(course, NodeNo(number)) {
                return true;
            }
        }
        false
    }
}

// The least target of the nodes that are not done.
fn least_target(course: &SharedRun) -> Nanos
    ensures { IsLeast course.now.bus.run course.now.bus.state result }
{
    let mut least = READING;
    for number in 0..course.count() {
        least = lesser(least, course.target(NodeNo(number)));
    }
    least
}

// The lesser of a target and of another, if there is one.
fn lesser(target: Nanos, other: Option<Nanos>) -> Nanos
    ensures one { result ≤ target }
    ensures other { IfSome other (λ least. result ≤ least) }
{
    match other {
        Some(least) if least < target => least,
        Some(_) | None => target,
    }
}
