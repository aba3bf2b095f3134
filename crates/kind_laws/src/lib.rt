//! Laws of the types of values: a Boolean is 0 or 1 when rounds are voted on, when plants and their
//! controllers are fused, and in each state of the bus, as in the composition. Definitions and their laws
//! only.
#![tactic(auto)]

pub mod laws;
