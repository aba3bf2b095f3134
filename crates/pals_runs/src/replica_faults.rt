//! Faults of replicas, which votes are given.
use pals_base::{LinkNo, NodeNo, Tuple};

/// A replica's fault in one round: it sends these values on a link to one replica of the link's
/// target, in place of its own. Replicas are numbered from 1.
#[derive(Drop)]
pub struct VoteFault {
    pub source: NodeNo,
    pub replica: u32,
    pub link: LinkNo,
    pub target_replica: u32,
    pub values: Tuple,
}
