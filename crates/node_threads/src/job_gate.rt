//! The gate, which sees the start and the end of each job, outside the lock.
ghost use Rattle.std.specs.Prelude.{◌≡◌};

use pals_base::NodeNo;
use pals_node::{Done, Job};

/// Sees each job, which is one step of a round, outside the lock.
pub trait Gate {
    /// A node's job is about to run.
    fn enter(&self, node: NodeNo, round: u32);

    /// It has run.
    fn leave(&self, node: NodeNo, round: u32);
}

/// Does nothing.
#[derive(Clone, Copy)]
pub struct NoGate;

impl Gate for NoGate {
    fn enter(&self, _node: NodeNo, _round: u32) {}

    fn leave(&self, _node: NodeNo, _round: u32) {}
}

/// Does a node's job between the calls of the gate, outside the lock.
pub fn done_by<G: Gate>(gate: &G, job: Job) -> Done
    ensures { result ≡ job }
{
    let (node, round) = (job.node(), job.round());
    gate.enter(node, round);
    let done = job.run();
    gate.leave(node, round);
    done
}
