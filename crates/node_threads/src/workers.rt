//! The work of threads on the course under the lock: each has one node, and the calling thread has the nodes
//! that have no thread. Only the types of a course and of its jobs pin the result, so there are no clauses here.
use crate::job_gate::Gate;
use crate::locked_state::Locked;
use crate::moves_under_lock::NextMove;
use crate::run_codes::RunCodes;
use crate::thread_starters::Starter;
use crate::wake_signals::WakeSignals;
use pals_base::NodeNo;
use std::sync::{Mutex, Wait};
use std::thread;
use std::thread::{Builder, Threads};

// The bytes of a worker's stack. The deepest worker that was measured used 12,504, with 256 nodes and expressions
// nested 60 deep: the operands of step code are not on it. So this leaves a factor of 20.
const STACK: usize = 0x4_0000;

/// The parts of all nodes, up to their ends.
pub fn work_all<C: RunCodes + Send + Sync, R: Threads + Wait + Sync, W: Starter, G: Gate + Sync>(
    rt: &R,
    lock: &Mutex<Locked<C>>,
    signals: &WakeSignals,
    count: u32,
    starter: &mut W,
    gate: &G,
) {
    thread::scope(thread::scope_env(), rt, |scope| {
        for number in 0..count {
            let node = NodeNo(number);
            let started = starter.admits(node)
                && Builder::new()
                    .stack_size(STACK)
                    .spawn_scoped(scope, move || work(rt, lock, signals, gate, node))
                    .is_ok();
            if !started {
                lock.lock(rt).give_to_caller(node);
            }
        }
        work_in_turns(rt, lock, signals, count, gate);
    });
}

// The part of a node, in a thread of its own: turns under the lock, and jobs outside it. If a turn waits, the
// thread sleeps under the same lock, and takes the next one as soon as it is woken.
fn work<C: RunCodes, R: Wait, G: Gate>(
    rt: &R,
    lock: &Mutex<Locked<C>>,
    signals: &WakeSignals,
    gate: &G,
    node: NodeNo,
) {
    let mut done = None;
    for _ in rt.forever() {
        let mut locked = lock.lock(rt);
        let (turn, wake) = match locked.turn(node, done) {
            (NextMove::Wait, wake) => {
                signals.notify(wake);
                locked = signals.sleep(rt, locked, node);
                locked.turn(node, None)
            }
            other => other,
        };
        drop(locked);
        signals.notify(wake);
        done = match turn {
            NextMove::Work(job) => Some(job.done_by(gate)),
            NextMove::Wait | NextMove::Again => None,
            NextMove::Over => return,
        };
    }
}

// The parts of the nodes that have no thread, in turns, in the thread that calls it.
fn work_in_turns<C: RunCodes, R: Wait, G: Gate>(
    rt: &R,
    lock: &Mutex<Locked<C>>,
    signals: &WakeSignals,
    count: u32,
    gate: &G,
) {
    for _ in rt.forever() {
        for number in 0..count {
            work_one_turn(rt, lock, signals, NodeNo(number), gate);
        }
        if signals.sleep_caller(rt, lock) {
            return;
        }
    }
}

// The turn of a node, where the calling thread has it, with the job that it asks for.
fn work_one_turn<C: RunCodes, R: Wait, G: Gate>(
    rt: &R,
    lock: &Mutex<Locked<C>>,
    signals: &WakeSignals,
    node: NodeNo,
    gate: &G,
) {
    let (turn, wake) = lock.lock(rt).turn_of_caller(node);
    signals.notify(wake);
    if let NextMove::Work(job) = turn {
        let done = job.done_by(gate);
        let wake = lock.lock(rt).finish_of_caller(done);
        signals.notify(wake);
    }
}
