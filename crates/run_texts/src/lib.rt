//! The texts of runs: the rounds of a run whose nodes are done, with its journal if a trace is requested; the rounds
//! and the journal of a run that stopped; or the line of the first node whose clock ended.
#![tactic(auto)]

mod first_clock_end;
mod run_report;

pub use run_report::{RunReport, tell_run};
