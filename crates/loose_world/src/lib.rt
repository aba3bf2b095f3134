//! A loose world: a list of events without time, in which messages may be lost, repeated and reordered, up to the first
//! event that gives a stop or is not allowed; and the text of a bus after events. Laws: a list of loose events has
//! exactly one end; and the text of a bus after events, whatever its clocks read, is the text of their world.
#![tactic(auto)]

mod journal_text;
mod loose_run;
mod message_text;
mod row_text;
pub mod world_laws;

pub use journal_text::add_journal;
pub use loose_run::{LooseEnd, add_sent_messages, run_loose};
pub use message_text::OutLinks;
pub use row_text::{add_common_rows, add_finished_rows};
