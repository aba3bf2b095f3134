//! The round budget of one processor: the maximum time of one step of each of its components, whether the
//! sum fits the maximum execution time, and the timetable of its rounds. Definitions and laws of round
//! budgets, and of their text, are in `specs`.
#![tactic(auto)]

pub mod laws;
mod processor_load;
mod releases;
mod served_steps;
mod timetables;

pub use processor_load::{fits, total};
pub use served_steps::TimetableLine;
pub use timetables::{BudgetEnd, timetable};
