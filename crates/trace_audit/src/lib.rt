//! The verdict on the trace of a run: the rows of its report are compared with the composition as they are
//! read, and then the lines of its journal are replayed on a bus.
#![tactic(auto)]

mod audited_rows;
mod end_rules;
mod entry_clocks;
mod entry_comparison;
mod first_broken_rule;
mod journal_lines;
mod numerals;
mod replay;
mod replayed_entries;
mod replayed_events;
mod report;
mod row_text;
mod told_entries;
mod trace_verdict;
mod words;

pub use journal_lines::has_form;
pub use told_entries::told;
pub use trace_verdict::audit;
