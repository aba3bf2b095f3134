//! Laws of traces: what a wrong line means. Definitions and their laws.
#![tactic(auto)]

pub mod laws;
