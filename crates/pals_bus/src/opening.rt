//! What a run begins with.
ghost use Rattle.std.specs.Prelude.{◌≡◌, ℕ, ◌<◌, ◌≤◌, length, map, slice_index_or, IfOk};
ghost use Rattle.pals_base.specs.declared.limits.TheConstants.{ROUNDS};
ghost use Rattle.pals_model.specs.DesignRules.{IsDesign};
ghost use Rattle.pals_node.specs.proof.NodeAndJobValues.{opening_value};
ghost use Rattle.pals_bus.specs.proof.StepCodesOfNodes.{AreCodes};
ghost use Rattle.pals_bus.specs.proof.OutOfRangeDefaults.{no_flight, no_node_value, no_queue};
ghost use Rattle.pals_bus.specs.proof.OpeningNodes.{AreOpening};

use crate::node_list::NodeList;
use link_buffers::{DueQueue, Flight};
use pals_base::{ItemList, NoMemory, NodeNo, PortValue};
use pals_model::{Design, Env};
use pals_node::{Node, NodePlan};
use std::alloc::Global;
use std::sync::Arc;
use step_code::Code;

/// The nodes of a design, each with the code of its component.
pub fn opening_nodes(
    alloc: Global,
    design: &Design,
    codes: ItemList<Code>,
    rounds: u32,
) -> Result<NodeList, NoMemory>
    requires some { 1 ≤ rounds }
    requires most { rounds ≤ ROUNDS }
    requires codes { AreCodes design.now codes }
    ensures { IfOk result (λ nodes. AreOpening design.now codes rounds nodes) }
{
    let mut nodes = Vec::with_capacity(alloc, design.components().len())?;
    for code in codes.into_vec() {
        let node = NodeNo(nodes.len() as u32);
        let plan = NodePlan::new(alloc, design, node, code)?;
        let plan = Arc::new(alloc, plan)?;
        nodes.push(Node::new(alloc, plan, rounds)?)?;
    }
    NodeList::new(alloc, ItemList::from_vec(nodes))
}

/// The nodes of the same run before its first event.
pub fn fresh_nodes(alloc: Global, nodes: &[Node]) -> Result<NodeList, NoMemory>
    requires { (node : ℕ) → node < length nodes.now → 1 ≤ (slice_index_or nodes.now node no_node_value).rounds }
    ensures { IfOk result (λ fresh. fresh ≡ map (λ n. opening_value n.program n.rounds) nodes.now) }
{
    let mut fresh = ItemList::new(alloc);
    for node in nodes {
        fresh.push(node.fresh(alloc)?)?;
    }
    NodeList::new(alloc, fresh)
}

/// A flight without copies for each link of a design.
pub fn empty_flights(alloc: Global, design: &Design) -> Result<ItemList<Flight>, NoMemory>
    ensures flights { IfOk result (λ flights. flights ≡ map (λ _. no_flight) design.now.links) }
    ensures rules { IsDesign design.now }
{
    let mut flights = ItemList::new(alloc);
    for _link in design.links() {
        flights.push(Flight::new(alloc)?)?;
    }
    Ok(flights)
}

/// A queue without messages for each node.
pub fn empty_queues(alloc: Global, nodes: &[Node]) -> Result<ItemList<DueQueue>, NoMemory>
    ensures { IfOk result (λ queues. queues ≡ map (λ _. no_queue) nodes.now) }
{
    let mut queues = ItemList::new(alloc);
    for _node in nodes {
        queues.push(DueQueue::new(alloc)?)?;
    }
    Ok(queues)
}

/// Room for the values of a round.
pub fn room_for_values(alloc: Global, env: &Env) -> Result<Vec<PortValue>, NoMemory>
    ensures { IfOk result (λ values. length values.items ≡ length env.now.lists) }
{
    vec![in alloc; PortValue::Absent; env.lists.len()]
}
