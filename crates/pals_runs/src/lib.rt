//! What scenarios, runs and audits share: the commands of the program, events of worlds and why one
//! is refused, the journal of a run with its stops, the verdict on a trace, and what monitors,
//! votes and plants are given. The text of a journal line is defined in `specs/JournalLines.antt`.
#![tactic(auto)]

mod commands;
mod events_and_faults;
mod forms;
mod journal;
mod phase;
mod plant_pairs;
mod replica_faults;
mod verdicts;

pub use commands::Command;
pub use events_and_faults::{Event, EventFault, EventSubject};
pub use forms::{Compare, Form};
pub use journal::{Arrived, Cause, JournalEntry, Stop};
pub use phase::Phase;
pub use plant_pairs::Pair;
pub use replica_faults::VoteFault;
pub use verdicts::{TraceRule, Verdict};
