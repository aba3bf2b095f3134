//! Resolves the behaviours of threads from their text: names become numbers, types are checked, and each
//! violation is listed with its position.
//!
//! [`resolve_annex`] is proved to return the behaviour and the violations of their definitions. The crate does
//! not check that names are distinct and declared, and does not run behaviours.
#![tactic(auto)]

pub mod actions;
pub mod annex;
pub mod cycle_laws;
pub mod cycles;
pub mod expressions;
pub mod loop_turns;
pub mod outgoing_transitions;
pub mod ports_and_variables;
pub mod scope;
pub mod state_rules;
pub mod states;
pub mod transitions;
pub mod type_names;
pub mod violation;

pub use actions::resolve_block;
pub use annex::resolve_annex;
pub use expressions::{Typed, expect, fits, resolve_whole};
pub use ports_and_variables::DeclaredValues;
pub use scope::{DeclaredName, Meaning, Scope};
pub use violation::{Violation, add_if};
