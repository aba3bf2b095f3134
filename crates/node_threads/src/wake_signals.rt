//! The signals to sleeping threads: one `Condvar` for each node, and one for the calling thread. Only
//! other threads see who sleeps and who is woken, so no clause speaks of it.
ghost use Rattle.std.specs.Prelude.{◌≡◌, IfOk, vec_len};

use crate::locked_state::Locked;
use crate::run_codes::RunCodes;
use crate::wake_list::Sleeper;
use pals_base::{NoMemory, NodeNo};
use std::alloc::Global;
use std::sync::{Condvar, Mutex, MutexGuard, Wait};

/// A signal to the thread of each node, and one to the calling thread.
#[derive(Drop)]
pub struct WakeSignals {
    nodes: Vec<Condvar>,
    caller: Condvar,
}

impl WakeSignals {
    /// The signals of a run of `count` nodes.
    pub fn new(alloc: Global, count: u32) -> Result<WakeSignals, NoMemory>
        ensures { IfOk result (λ signals. vec_len signals.nodes ≡ count) }
    {
        let mut nodes = Vec::new(alloc);
        for _node in 0..count {
            nodes.push(Condvar::new())?;
        }
        Ok(WakeSignals {
            nodes,
            caller: Condvar::new(),
        })
    }

    /// Sleeps until a node need not wait, and gives the lock back that it was given.
    pub fn sleep<'a, C: RunCodes, R: Wait>(
        &self,
        rt: &R,
        locked: MutexGuard<'a, Locked<C>>,
        node: NodeNo,
    ) -> MutexGuard<'a, Locked<C>> {
        match self.nodes.get(node.0 as usize) {
            None => locked,
            Some(signal) => signal.wait_while(rt, locked, |locked| locked.sleeps(node)),
        }
    }

    /// Sleeps until some node of the calling thread need not wait. Answers whether none of them has
    /// anything left to do.
    pub fn sleep_caller<C: RunCodes, R: Wait>(&self, rt: &R, lock: &Mutex<Locked<C>>) -> bool {
        let locked = self
            .caller
            .wait_while(rt, lock.lock(rt), |locked| locked.caller_sleeps());
        locked.caller_is_over()
    }

    /// Wakes a thread, if one is given.
    pub fn notify(&self, sleeper: Option<Sleeper>) {
        match sleeper {
            None => {}
            Some(Sleeper::Caller) => self.caller.notify_one(),
            Some(Sleeper::Node(number)) => {
                if let Some(signal) = self.nodes.get(number) {
                    signal.notify_one();
                }
            }
        }
    }
}
