//! A gate that shapes a schedule.
use node_threads::Gate;
use pals_base::NodeNo;
use std::sync::atomic::{AtomicU64, Ordering};
use std::thread;

/// Yields 0 to 7 times before and after each job, as a counter from a seed determines.
#[derive(Drop)]
pub struct Yields {
    state: AtomicU64,
}

impl Yields {
    pub fn new(seed: u64) -> Yields {
        Yields {
            state: AtomicU64::new(seed),
        }
    }

    fn now(&self) {
        let state = self
            .state
            .fetch_add(0x9E37_79B9_7F4A_7C15, Ordering::SeqCst);
        let mixed = (state ^ (state >> 30)).wrapping_mul(0xBF58_476D_1CE4_E5B9);
        for _turn in 0..(mixed >> 60) % 8 {
            thread::yield_now();
        }
    }
}

impl Gate for Yields {
    fn enter(&self, _node: NodeNo, _round: u32) {
        self.now();
    }

    fn leave(&self, _node: NodeNo, _round: u32) {
        self.now();
    }
}
