//! Monitors of runs: past-time temporal formulas over all rounds since the first, evaluated after each round
//! from one bit for each subformula. The semantics of formulas and the text of watched properties are in `specs/`.
#![tactic(auto)]

mod false_property;
mod flat_form;
mod form_bits;
pub mod laws;
mod monitor;
mod monitors;

pub use false_property::FalseProperty;
pub use monitor::Monitor;
pub use monitors::Monitors;
