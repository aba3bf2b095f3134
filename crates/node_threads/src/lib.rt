//! The nodes of a bus in threads: each goes by its clock, under one lock, and its jobs run outside it.
#![tactic(auto)]

mod awaited_sources;
mod clocks;
mod course;
mod host;
mod job_gate;
mod locked_state;
mod moves_under_lock;
mod node_end;
mod opening_course;
mod own_jobs;
mod run_codes;
mod run_completion;
mod sleepers;
mod thread_starters;
mod threaded_run;
mod wake_list;
mod wake_signals;
mod workers;

pub use host::Host;
pub use job_gate::{Gate, NoGate};
pub use node_end::NodeEnd;
pub use thread_starters::{FakeStarter, Starter, ThreadStarter};
pub use threaded_run::{RunEnd, run_threads};
