//! The verdict on the trace of a run.
use crate::journal::Stop;

/// The rule that the first wrong line of a trace breaks.
#[derive(Clone, Copy)]
pub enum TraceRule {
    /// A line of the report is not the composition's, or the report ends inside a row.
    Row,
    /// A line has no journal form, names nothing of the design, or has no reading.
    Text,
    /// An event that is not allowed there, or that has another result.
    Order,
    /// A reading that falls.
    Reading,
    /// A start, a step or a missed stop before its alarm.
    Alarm,
    /// A send before its release.
    Release,
    /// An arrival that is not due, or a start while one is due.
    Due,
    /// A stop that is not the run's.
    Stop,
    /// A run that neither stopped nor was done.
    Unfinished,
    /// Not as many rows as rounds that all nodes finished.
    Count,
}

/// The verdict: a sound trace with the number of its rows and its stop, or the index of the first
/// wrong line, from 0, with the first rule that it breaks.
#[derive(Clone, Copy)]
pub enum Verdict {
    Sound { rounds: u32, stop: Option<Stop> },
    Wrong { index: u32, rule: TraceRule },
}
