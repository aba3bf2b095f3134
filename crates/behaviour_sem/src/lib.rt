//! The meaning of behaviours as a program: one step, by a walk over the trees of its actions and
//! expressions.
#![tactic(auto)]

mod actions;
mod early_end;
mod expressions;
mod group_table;
mod step;
mod step_inputs;
mod transition_groups;
mod transitions;

pub use step::{fire, fire_into};
pub use transition_groups::TransitionGroups;
