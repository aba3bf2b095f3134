//! The phase of a node: where it is in its rounds.

/// What a node is doing: it waits for its next round; the job of this step is out; a number of
/// steps of the round are finished and the next is to start; all steps are finished and the round
/// is not sent; or all rounds are done.
#[derive(Clone, Copy, PartialEq, Debug)]
pub enum Phase {
    Waiting,
    Running(u32),
    Between(u32),
    Holding,
    Done,
}
