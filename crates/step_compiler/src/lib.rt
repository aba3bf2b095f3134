//! The compiler from behaviours to step code: the code computes the same step as the behaviour.
#![tactic(auto)]

mod actions;
mod block_order;
mod blocks;
mod checked_numbers;
mod code_lengths;
mod compile_fault;
mod compiler;
mod expressions;
pub mod laws;
mod list_access;
mod loop_depths;
mod transitions;

pub use compile_fault::CompileFault;
pub use compiler::compile;
