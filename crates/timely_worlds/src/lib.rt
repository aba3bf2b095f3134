//! Timed worlds whose events happen at given times, such as the times of a timetable: if these times meet the
//! bounds, every list of such events is within the bounds. Definitions and their laws.
#![tactic(auto)]

pub mod laws;
