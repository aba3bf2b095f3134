//! Progress of worlds: each list of timed events within the bounds can be continued, and finished: it is the first part
//! of a list within the bounds after which all nodes have done all rounds. Definitions and their laws.
#![tactic(auto)]

pub mod laws;
