//! Tests of nodes and the bus: worked rows, and each call that allocates, once with enough memory.
#![tactic(auto)]

#[cfg(test)]
mod accepted_design;
#[cfg(test)]
mod buses;
#[cfg(test)]
mod checked_bus_calls;
#[cfg(test)]
mod late_jobs;
#[cfg(test)]
mod nodes;
