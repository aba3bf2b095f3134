//! The first node of a run whose clock ended, or that all nodes are done.
ghost use Rattle.std.specs.Prelude.{◌≡◌, ◌≤◌, ℕ, length, Some, IfOk, slice_get};
ghost use Rattle.pals_base.specs.declared.limits.TheConstants.{COMPONENTS};
ghost use Rattle.node_threads.specs.declared.node_end.NodeEnd.TheVariants as end;
ghost use Rattle.run_texts.specs.proof.NodeEnds.{AreFirst};

use node_threads::NodeEnd;
use pals_base::{Nanos, NoMemory, NodeNo};
use std::alloc::AllocError;

/// The first node whose list has ended, with the requested target, in nanoseconds; `None` if all nodes are
/// done. Fails if a node ran out of memory.
pub fn first_ended(ends: &[NodeEnd]) -> Result<Option<(NodeNo, Nanos)>, NoMemory>
    requires few { length ends.now ≤ COMPONENTS }
    requires going { (node : ℕ) → slice_get ends.now node ≡ Some end.Stopped → ⊥ }
    ensures { IfOk result (AreFirst ends.now (length ends.now)) }
{
    let mut first = None;
    for node in 0..ends.len() {
        match ends[node] {
            NodeEnd::Finished => {}
            NodeEnd::ClockEnded { target } => {
                first = first.or(Some((NodeNo(node as u32), target)));
            }
            NodeEnd::Stopped => unreachable!(),
            NodeEnd::Closed | NodeEnd::Memory => return Err(AllocError),
        }
    }
    Ok(first)
}
