//! The completion of a run once its threads have ended: the parts of nodes that have not ended, as where a thread
//! came back without its job, are driven to their ends with no other thread.
ghost use Rattle.std.specs.Prelude.{IfOk};
ghost use Rattle.node_threads.specs.proof.SharedCourses.{IsOf, Stays};
ghost use Rattle.node_threads.specs.proof.NodeEndsAndOutcomes.{EndsFit, IsOutcome};

use crate::course::SharedRun;
use crate::job_gate::{Gate, done_by};
use crate::moves_under_lock::NextMove;
use crate::node_end::NodeEnd;
use crate::threaded_run::RunEnd;
use pals_base::{ItemList, NoMemory, NodeNo};
use std::alloc::Global;
use std::mem::swap;
use std::sync::Wait;

/// The outcome of the spare run once all threads have ended, with the course from the lock.
pub fn end_run<R: Wait, G: Gate>(
    rt: &R,
    alloc: Global,
    out: SharedRun,
    kept: SharedRun,
    gate: &G,
) -> Result<RunEnd, NoMemory>
    ensures { IfOk result (λ end. IsOutcome kept.bus kept.clocks end.bus end.ends) }
{
    driven(rt, alloc, held_or_kept(out, kept), gate)
}

// The course from the lock if it belongs to the spare run, and else that run at its opening.
fn held_or_kept(mut out: SharedRun, mut kept: SharedRun) -> SharedRun
    ensures { IsOf kept.bus kept.clocks result }
{
    restore(&mut out, &mut kept);
    out
}

// Puts back the spare run if the lock held another one.
fn restore(out: &mut SharedRun, kept: &mut SharedRun)
    ensures { IsOf kept.old.bus kept.old.clocks out.new }
{
    if out.is_same(kept) {
        return;
    }
    swap(out, kept);
}

// The outcome of a course once the parts of all its nodes have ended.
fn driven<R: Wait, G: Gate>(
    rt: &R,
    alloc: Global,
    mut course: SharedRun,
    gate: &G,
) -> Result<RunEnd, NoMemory>
    ensures { IfOk result (λ end. IsOutcome course.bus course.clocks end.bus end.ends) }
{
    let ends = drive(rt, alloc, &mut course, gate)?;
    Ok(RunEnd {
        bus: course.into_bus(),
        ends,
    })
}

// The parts of all nodes that have not ended, in turns, with no other thread.
fn drive<R: Wait, G: Gate>(
    rt: &R,
    alloc: Global,
    course: &mut SharedRun,
    gate: &G,
) -> Result<ItemList<NodeEnd>, NoMemory>
    ensures stays { Stays course.old course.new }
    ensures ends { IfOk result (EndsFit course.new.bus course.new.clocks) }
{
    for _ in rt.forever() {
        if course.is_over() {
            return course.ends(alloc);
        }
        turn_all(course, gate);
    }
    unreachable!()
}

// One turn of each node.
#[tactic(auto, using(crate::proofs::ChangesUnderLock::stays_on))]
fn turn_all<G: Gate>(course: &mut SharedRun, gate: &G)
    ensures { Stays course.old course.new }
{
    for number in 0..course.count() {
        go_on(course, gate, NodeNo(number));
    }
}

// A node's turn, with the job that it asks for.
#[tactic(auto, using(crate::proofs::ChangesUnderLock::stays_on))]
fn go_on<G: Gate>(course: &mut SharedRun, gate: &G, node: NodeNo)
    ensures { Stays course.old course.new }
{
    if let NextMove::Work(job) = course.begin(node) {
        course.hand_in(done_by(gate, job));
    }
}
