//! Components that run three times, whose messages each reader votes on: with at most one faulty replica, all
//! received messages and each replica's state are the same as in the composition without replicas.
#![tactic(auto)]

mod fault_table;
pub mod laws;
mod layer_rounds;
mod opening;
mod product;
mod received_messages;
mod replica_layer;
mod tap_tuples;
mod three_layers;
pub mod votes;

pub use product::VoteProduct;
