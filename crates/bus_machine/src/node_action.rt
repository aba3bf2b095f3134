//! What a node does in a round, and from which reading on.
use pals_base::Nanos;

/// What a node does: it starts a round, which is its step 0; it starts a later step of it; or it
/// sends it.
#[derive(Clone, Copy)]
pub enum NodeAction {
    Start { round: u32 },
    Step { round: u32, step: u32 },
    Send { round: u32 },
}

/// What a node does next, and from which reading on, in nanoseconds.
#[derive(Clone, Copy)]
pub struct Next {
    pub action: NodeAction,
    pub target: Nanos,
}
