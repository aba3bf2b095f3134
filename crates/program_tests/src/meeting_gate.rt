//! A scheduling hook that detects whether four jobs run at the same time.
use node_threads::Gate;
use pals_base::NodeNo;
use std::sync::atomic::{AtomicU64, Ordering};

// The maximum number of turns for which a job waits for the others. A turn is one load of the set of nodes.
const TURNS: u64 = 200_000_000;

const ALL_FOUR: u64 = 0b1111;

/// Holds the first job of each of four nodes until the first jobs of all four have entered.
#[derive(Drop)]
pub struct MeetingGate {
    // A bit for each node whose first job has entered.
    entered: AtomicU64,
    // The number of jobs that gave up.
    late: AtomicU64,
}

impl MeetingGate {
    pub fn new() -> MeetingGate {
        MeetingGate {
            entered: AtomicU64::new(0),
            late: AtomicU64::new(0),
        }
    }

    /// Returns whether the first jobs of all four nodes were in progress at the same time.
    pub fn all_met(&self) -> bool {
        self.entered.load(Ordering::SeqCst) == ALL_FOUR && self.late.load(Ordering::SeqCst) == 0
    }

    // Waits until all four have entered. Returns whether they did.
    fn waits(&self) -> bool {
        for _turn in 0..TURNS {
            if self.entered.load(Ordering::SeqCst) == ALL_FOUR {
                return true;
            }
        }
        false
    }
}

impl Gate for MeetingGate {
    fn enter(&self, node: NodeNo, _round: u32) {
        let bit = 1u64.checked_shl(node.0).unwrap_or(0);
        let before = self.entered.fetch_or(bit, Ordering::SeqCst);
        if before & bit == 0 && !self.waits() {
            self.late.fetch_add(1, Ordering::SeqCst);
        }
    }

    fn leave(&self, _node: NodeNo, _round: u32) {}
}
