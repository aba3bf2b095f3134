//! Pairs of a plant and its controller, which fused composition is given.
use pals_base::NodeNo;

/// A plant that its controller reads and answers within the round.
#[derive(Clone, Copy)]
pub struct Pair {
    pub plant: NodeNo,
    pub controller: NodeNo,
}
