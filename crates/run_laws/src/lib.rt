//! Laws of runs whose nodes respect their clocks, in whatever order they act: the invariants of a run's
//! journal and state, when a run stops, and where it ends; the verdict on a trace, by its lines; and worlds
//! with time, whose events are within the bounds: such a world has no stop, stores each arriving message,
//! and has no node two rounds ahead of another. The crate has definitions and laws, no programs.
#![tactic(auto)]

pub mod history_and_trace_laws;
pub mod laws;
pub mod line_laws;
pub mod replay_laws;
pub mod world_laws;
