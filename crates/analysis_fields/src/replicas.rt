//! Parses the field of replicas: the components that are replicated.
ghost use Rattle.std.specs.Prelude.{◌≡◌, ◌∷◌, ◌++◌, []};
ghost use Rattle.serde_json.specs.View.{view};
ghost use Rattle.scenario_values.specs.ResultCombinators.{Answers, Shows};
ghost use Rattle.analysis_fields.specs.ReplicasAndTheirFaults.{is_among, with_replica, replicas_in};

use pals_base::{ItemList, NodeNo};
use scenario_values::json_values::{elements, text};
use scenario_values::placed_faults::{Place, out_of_range};
use scenario_values::{DesignNames, ScenarioFault};
use serde_json::Value;
use std::alloc::Global;

/// Returns whether a list has a component.
pub fn is_among(nodes: &[NodeNo], node: NodeNo) -> bool
    ensures { result ≡ is_among nodes.now node.0 }
{
    nodes.iter().any(|other| other.0 == node.0)
}

// Adds one more component, which is not among the earlier ones.
#[tactic(auto, unfolding(crate::specs::ReplicasAndTheirFaults::with_replica))]
fn read_replica(
    alloc: Global,
    names: &DesignNames<'_>,
    replicas: &[NodeNo],
    value: &Value,
) -> Result<NodeNo, ScenarioFault>
    ensures { Shows (λ node. replicas.now ++ node ∷ []) (with_replica names.now replicas.now (view value.now)) result }
{
    let place = Place::Index("replicas", replicas.len());
    let path = text(alloc, place, value)?;
    let node = names.node(alloc, place, path)?;
    if is_among(replicas, node) {
        return Err(out_of_range(alloc, place));
    }
    Ok(node)
}

/// Returns the replicated components. They are distinct, so the list is short. Errors: the first fault of the
/// field.
#[tactic(auto, unfolding(crate::specs::ReplicasAndTheirFaults::replicas_in))]
pub fn read_replicas(
    alloc: Global,
    names: &DesignNames<'_>,
    value: &Value,
) -> Result<ItemList<NodeNo>, ScenarioFault>
    ensures { Answers (replicas_in names.now (view value.now)) result }
{
    let items = elements(alloc, Place::Field("replicas"), value)?;
    let mut replicas = ItemList::new(alloc);
    for item in items {
        let node = read_replica(alloc, names, replicas.as_slice(), item)?;
        replicas.push(node)?;
    }
    Ok(replicas)
}
