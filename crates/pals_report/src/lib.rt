//! Formats the program's output: the rounds of a run, an accepted design, the errors of a text, and the lines
//! of runs and scenarios.
//!
//! Each function appends one text to a buffer, and is proved to append exactly the text of its definition. On
//! an allocation failure most functions leave the buffer unchanged. The crate formats values; it computes none
//! of them, and writes to no file.
#![tactic(auto)]

mod clock_ends_and_verdicts;
mod component_state;
mod design_lines;
mod design_report;
mod event_faults;
mod journal_entries;
mod line_word;
mod overlong_code;
mod periods;
mod port_and_adaptor_names;
mod round_parts;
mod row;
mod row_tap_line;
mod scenario_faults;
mod sent_messages;
mod tap_places;
mod value;
mod whole_row_writes;
mod whole_writes;

pub use clock_ends_and_verdicts::{add_clock_end_line, add_verdict};
pub use design_lines::{add_feeds, add_links, add_taps};
pub use design_report::add_check;
pub use event_faults::add_event_fault;
pub use journal_entries::add_entry;
pub use line_word::{LineWord, add_line, node_word};
pub use overlong_code::add_overlong_code;
pub use round_parts::RoundParts;
pub use scenario_faults::add_scenario_fault;
pub use sent_messages::add_sent;
pub use tap_places::TapPlaces;
pub use value::add_tuple;
pub use whole_row_writes::{add_frame, add_part, add_round, add_row, add_tap, add_tap_tuple};
pub use whole_writes::whole_or_none;
