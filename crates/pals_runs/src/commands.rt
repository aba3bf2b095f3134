//! The commands of the program.
use pals_base::Text;

/// A command. A root names a system implementation, as `Top.impl`.
#[derive(Drop)]
pub enum Command {
    /// The canonical text of a design.
    Print,
    /// What a design is accepted with, or its violations.
    Check { root: Text },
    /// The rounds of the synchronous composition.
    Sync { root: Text },
    /// What a list of events leaves in a world. A loose world has no time.
    World { root: Text, loose: bool },
    /// The rounds of a run on threads, with its journal if a trace is requested.
    Run { root: Text, trace: bool },
    /// The verdict on the trace of a run.
    Audit { root: Text },
    /// A run of a ring of `nodes` nodes, for `rounds` rounds: the program's `self`.
    Ring { nodes: u32, rounds: u32 },
    /// The verdicts of monitors, round by round.
    Watch { root: Text },
    /// The rounds with replicas that vote.
    Vote { root: Text },
    /// The rounds with plants that answer their controllers without delay.
    Fuse { root: Text },
    /// Whether processors have time for the steps of their components.
    Budget { root: Text },
}
