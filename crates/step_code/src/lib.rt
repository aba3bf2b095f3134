//! Step code: the instructions that the steps of nodes are compiled to, what they do, and which
//! of them are code.
#![tactic(auto)]

pub mod code;
pub mod fault;
pub mod instr;
mod instruction_rules;
pub mod laws;
mod loops;
mod stack_heights;
mod verifier;
mod weights;

pub use code::{Code, most};
pub use fault::CodeFault;
pub use instr::{CodeParts, Instr};
pub use verifier::verify;
