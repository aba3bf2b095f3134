//! The fused composition of a design, round by round: a plant and its controller run the steps of a round in
//! alternation. Its definition and its laws are in `specs`.
#![tactic(auto)]

mod design_tables;
mod fuse_failure;
mod fusibility;
pub mod laws;
mod messages;
mod pair_steps;
mod product;
mod round;
mod taken_stages_and_parts;

pub use fuse_failure::FuseEnd;
pub use product::FuseProduct;
