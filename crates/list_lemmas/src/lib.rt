//! Lemmas on tests, numbers, lists, options and results that std lacks and that the proofs of several crates
//! cite.
//!
//! The crate has no executable code. Its proof files are organised by subject.
#![tactic(auto)]
