//! One node: the machine that runs a component, round by round. It starts a round once its messages have
//! arrived, returns the job of each step, takes the finished job, and sends the outputs of its steps. Its
//! contracts are the rows of the bus machine for one node (`bus_machine`).
#![tactic(auto)]

mod instruction_key;
mod job;
mod job_memory;
mod next_actions;
mod node;
mod node_fields_and_events;
mod plan;
mod refusals;
mod slots_and_input_vectors;
mod written_tuples;

pub use job::{Done, Finished, Job};
pub use node::Node;
pub use plan::NodePlan;
pub use refusals::{FinishEnd, SendEnd, StartEnd, StepEnd};
