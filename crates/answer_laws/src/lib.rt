//! Why a bundle has one answer: it has one meaning, and the cases of an answer exclude each other. Also laws of
//! the several answers of a run, and of the values in rounds.
#![tactic(auto)]

pub mod accepted_designs;
pub mod answer_uniqueness;
pub mod boolean_values;
pub mod bundle_uniqueness;
pub mod existence;
pub mod runs;
pub mod source_reads;
pub mod statuses;
