//! The bus as a transition system: the effect of each event on the nodes and links of a design; when they
//! agree with the synchronous composition; and how a journal records it. Definitions and their laws only.
#![tactic(auto)]

pub mod laws;
pub mod node_action;
pub mod plan;

pub use node_action::{Next, NodeAction};
pub use plan::{Input, Plan};
