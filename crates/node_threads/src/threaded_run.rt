//! A run of nodes in threads, from the opening of its bus to the ends of its nodes' parts.
ghost use Rattle.std.specs.Prelude.{◌≡◌, ◌≢◌, ◌≤◌, ℕ, length, vec_len, None, Some, IfOk, slice_get};
ghost use Rattle.pals_base.specs.declared.limits.TheConstants.{COMPONENTS};
ghost use Rattle.pals_bus.specs.proof.OpeningNodes.{opening_bus};
ghost use Rattle.node_threads.specs.proof.SharedCourses.{AreClocksOf};
ghost use Rattle.node_threads.specs.proof.NodeEndsAndOutcomes.{IsOutcome};
ghost use Rattle.node_threads.specs.declared.node_end.NodeEnd.TheVariants as ended;

use crate::course::SharedRun;
use crate::host::Host;
use crate::job_gate::Gate;
use crate::locked_state::Locked;
use crate::node_end::NodeEnd;
use crate::opening_course::open_with_spare;
use crate::run_codes::RunCodes;
use crate::run_completion::end_run;
use crate::sleepers::Sleepers;
use crate::thread_starters::Starter;
use crate::wake_signals::WakeSignals;
use crate::workers::work_all;
use pals_base::{ItemList, NoMemory};
use pals_bus::Bus;
use pals_clock::Clocks;
use std::alloc::Global;
use std::marker::Brand;
use std::sync::{Mutex, Wait};
use std::thread::Threads;

/// The bus after a run, and how the part of each node ended, in the order of the nodes. A part was stopped
/// only if there is a stop.
#[derive(Drop)]
pub struct RunEnd {
    pub bus: Bus,
    pub ends: ItemList<NodeEnd>,
    pub ghost few: { length ends ≤ COMPONENTS },
    pub ghost stopped: { (node : ℕ) → slice_get ends node ≡ Some ended.Stopped → bus.state.stop ≢ None },
}

/// Runs a bus from its opening to its end, with a thread for each node that the starter admits and
/// that can be started; the calling thread has the others, in turns. The clocks are a meeting if the
/// nodes of the bus meet, and else a list for each node; earlier picks of a list do not
/// count. It may wait for a lock, and for the threads to end.
pub fn run_threads<R: Threads + Wait + Sync, W: Starter, G: Gate + Sync>(
    host: Host<'_, R, W, G>,
    alloc: Global,
    bus: Bus,
    clocks: Clocks,
) -> Result<RunEnd, NoMemory>
    requires opening { bus ≡ opening_bus bus.run bus.codes bus.meeting }
    requires clocks { AreClocksOf bus clocks }
    ensures { IfOk result (λ end. IsOutcome bus clocks end.bus end.ends) }
{
    let Host {
        runtime,
        starter,
        gate,
    } = host;
    let (course, kept) = open_with_spare(alloc, bus, clocks)?;
    let out = run_course::<Brand, R, W, G>(runtime, alloc, course, starter, gate)?;
    end_run(runtime, alloc, out, kept, gate)
}

// The course that comes from the lock once all threads have ended. `C` stands for the codes of its nodes.
fn run_course<C: RunCodes + Send + Sync, R: Threads + Wait + Sync, W: Starter, G: Gate + Sync>(
    rt: &R,
    alloc: Global,
    course: SharedRun,
    starter: &mut W,
    gate: &G,
) -> Result<SharedRun, NoMemory>
    requires codes { course.bus.codes ≡ C.codes }
{
    let count = course.count();
    let (lock, signals) = shared::<C>(alloc, course)?;
    work_all(rt, &lock, &signals, count, starter, gate);
    Ok(lock.into_inner().into_course())
}

// A course under a lock, and the signals to the threads of its nodes.
fn shared<C: RunCodes>(
    alloc: Global,
    course: SharedRun,
) -> Result<(Mutex<Locked<C>>, WakeSignals), NoMemory>
    requires codes { course.bus.codes ≡ C.codes }
    ensures { IfOk result (λ both. vec_len both.1.nodes ≡ length course.bus.run.design.components) }
{
    let (signals, sleepers) = signals_and_sleepers(alloc, course.count())?;
    let lock = Mutex::new(Locked::new(course, sleepers));
    Ok((lock, signals))
}

// The signals to the threads of `count` nodes, all of which are awake.
fn signals_and_sleepers(alloc: Global, count: u32) -> Result<(WakeSignals, Sleepers), NoMemory>
    ensures { IfOk result (λ both. vec_len both.0.nodes ≡ count) }
{
    let signals = WakeSignals::new(alloc, count)?;
    let sleepers = Sleepers::new(alloc, count)?;
    Ok((signals, sleepers))
}
