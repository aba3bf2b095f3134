//! The bus machine whose nodes run the step code of their components: it has the same executions as the machine that
//! is defined by behaviours. Definitions and their law.
#![tactic(auto)]

pub mod laws;
