//! How close the bound is to the best one: periods that are one nanosecond shorter are enough, and periods that are
//! two nanoseconds shorter are not. Definitions and their laws.
#![tactic(auto)]

pub mod laws;
