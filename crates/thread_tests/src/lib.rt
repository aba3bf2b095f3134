//! Tests of runs in threads: the result does not depend on the schedule, or on how long the lists of clocks are.
#![tactic(auto)]

#[cfg(test)]
mod accepted_design;
#[cfg(test)]
mod bus_runs;
#[cfg(test)]
mod gates;
#[cfg(test)]
mod list_clocks;
#[cfg(test)]
mod schedules;
