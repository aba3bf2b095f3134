//! Parses the field of plants: pairs of a plant and its controller that can be fused.
ghost use Rattle.std.specs.Prelude.{◌≡◌, IfOk, IfErr, count_by, map};
ghost use Rattle.std.specs.List.{list_all};
ghost use Rattle.serde_json.specs.View.{view};
ghost use Rattle.scenario_values.specs.ResultCombinators.{Answers};
ghost use Rattle.scenario_values.specs.FieldValues.{entry_of};
ghost use Rattle.pals_model.specs.ComponentAndLinkNames.{node_named};
ghost use Rattle.analysis_fields.specs.Plants.{controller_in, named_in, is_number, names_node, shares, is_between};
ghost use Rattle.analysis_fields.specs.Plants.{are_equals, is_alone, is_fusible, pair_in, plants_in};

use pals_base::{ItemList, NodeNo};
use pals_model::{DesignParts, Link};
use pals_runs::Pair;
use scenario_values::json_values::{entries, text};
use scenario_values::placed_faults::{Place, out_of_range};
use scenario_values::{DesignNames, ScenarioFault};
use serde_json::{Map, Value};
use std::alloc::Global;

/// The components that an entry names.
#[derive(Clone, Copy)]
pub struct NamedPair {
    plant: Option<u32>,
    controller: Option<u32>,
}

// The number of the component with a path, if there is one.
fn number_of(names: &DesignNames<'_>, path: &str) -> Option<u32>
    ensures { result ≡ node_named names.now path.now }
{
    match names.find_node(path) {
        Some(node) => Some(node.0),
        None => None,
    }
}

// The component that a value names, if there is one.
fn controller_in(names: &DesignNames<'_>, value: &Value) -> Option<u32>
    ensures { result ≡ controller_in names.now (view value.now) }
{
    match value.as_str() {
        Some(path) => number_of(names, path),
        None => None,
    }
}

// The components that all entries name.
fn all_named(
    alloc: Global,
    names: &DesignNames<'_>,
    members: &Map<String, Value>,
) -> Result<Vec<NamedPair>, ScenarioFault>
    ensures ok { IfOk result (λ all. all.items ≡ map (named_in names.now) (map entry_of members.now.entries)) }
    ensures err { IfErr result (λ fault. fault ≡ ScenarioFault.Memory) }
{
    let mut all = Vec::new(alloc);
    for (name, item) in members.iter() {
        let plant = number_of(names, name.as_str());
        let controller = controller_in(names, item);
        all.push(NamedPair { plant, controller })?;
    }
    Ok(all)
}

fn is_number(number: Option<u32>, node: NodeNo) -> bool
    ensures { result ≡ is_number number node.0 }
{
    match number {
        Some(number) => number == node.0,
        None => false,
    }
}

fn names_node(node: NodeNo, named: &NamedPair) -> bool
    ensures { result ≡ names_node node.0 named.now }
{
    is_number(named.plant, node) || is_number(named.controller, node)
}

// Whether an entry names a component of a pair.
fn shares(pair: &Pair, named: &NamedPair) -> bool
    ensures { result ≡ shares pair.now named.now }
{
    names_node(pair.plant, named) || names_node(pair.controller, named)
}

// Whether a link between the plant and another component links the pair.
fn is_between(pair: &Pair, link: &Link) -> bool
    ensures { result ≡ is_between pair.now link.now }
{
    (link.source.0 != pair.plant.0 || link.target.0 == pair.controller.0)
        && (link.target.0 != pair.plant.0 || link.source.0 == pair.controller.0)
}

// The number of entries that name a component of a pair.
fn count_shared(all: &[NamedPair], pair: &Pair) -> usize
    ensures { result ≡ count_by (shares pair.now) all.now }
{
    all.iter().filter(|named| shares(pair, *named)).count()
}

// Whether all links of the plant are between the pair.
fn is_linked_between(links: &[Link], pair: &Pair) -> bool
    ensures { result ≡ list_all (is_between pair.now) links.now }
{
    links.iter().all(|link| is_between(pair, link))
}

// Whether two components are distinct and have one rate.
fn are_equals(design: &DesignParts, pair: &Pair) -> bool
    ensures { result ≡ are_equals design.now pair.now }
{
    design.rate(pair.plant) == design.rate(pair.controller) && pair.plant.0 != pair.controller.0
}

// Whether only its own entry names a component of a pair.
fn is_alone(all: &[NamedPair], pair: &Pair) -> bool
    ensures { result ≡ is_alone all.now pair.now }
{
    count_shared(all, pair) == 1
}

// Whether two components have one rate, no other entry names one of them, and the plant is linked only to the
// controller.
#[tactic(auto, unfolding(crate::specs::Plants::is_fusible))]
fn is_fusible(design: &DesignParts, all: &[NamedPair], pair: &Pair) -> bool
    ensures { result ≡ is_fusible design.now all.now pair.now }
{
    are_equals(design, pair)
        && is_alone(all, pair)
        && is_linked_between(design.links.as_slice(), pair)
}

// Parses one pair, given the components that all entries name.
#[tactic(auto, unfolding(crate::specs::Plants::pair_in))]
fn read_pair(
    alloc: Global,
    names: &DesignNames<'_>,
    all: &[NamedPair],
    name: &str,
    value: &Value,
) -> Result<Pair, ScenarioFault>
    ensures { Answers (pair_in names.now all.now (name.now, view value.now)) result }
{
    let place = Place::Name("plants", name);
    let plant = names.node(alloc, place, name)?;
    let path = text(alloc, place, value)?;
    let controller = names.node(alloc, place, path)?;
    let pair = Pair { plant, controller };
    if !is_fusible(names.design().parts(), all, &pair) {
        return Err(out_of_range(alloc, place));
    }
    Ok(pair)
}

/// Returns the plants with their controllers, in byte order of the plants' paths. Errors: the first fault of
/// the field.
#[tactic(auto, unfolding(crate::specs::Plants::plants_in))]
pub fn read_plants(
    alloc: Global,
    names: &DesignNames<'_>,
    value: &Value,
) -> Result<ItemList<Pair>, ScenarioFault>
    ensures { Answers (plants_in names.now (view value.now)) result }
{
    let members = entries(alloc, Place::Field("plants"), value)?;
    let all = all_named(alloc, names, members)?;
    let mut pairs = ItemList::new(alloc);
    for (name, item) in members.iter() {
        let pair = read_pair(alloc, names, all.as_slice(), name.as_str(), item)?;
        pairs.push(pair)?;
    }
    Ok(pairs)
}
