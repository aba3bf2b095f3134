//! A scheduling hook that makes a job slow.
use node_threads::Gate;
use pals_base::NodeNo;
use std::sync::atomic::{AtomicU64, Ordering};

// The number of turns for which the slow job is held: long enough for the other nodes to do everything possible.
const TURNS: u64 = 20_000_000;

/// Holds the first job of one node.
#[derive(Drop)]
pub struct SlowGate {
    node: NodeNo,
    turns: AtomicU64,
}

impl SlowGate {
    pub fn new(node: NodeNo) -> SlowGate {
        SlowGate {
            node,
            turns: AtomicU64::new(0),
        }
    }
}

impl Gate for SlowGate {
    fn enter(&self, node: NodeNo, round: u32) {
        if node.0 != self.node.0 || round != 0 {
            return;
        }
        for _turn in 0..TURNS {
            self.turns.fetch_add(1, Ordering::SeqCst);
        }
    }

    fn leave(&self, _node: NodeNo, _round: u32) {}
}
