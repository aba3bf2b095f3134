//! The values of the root in ports, and the delays of messages.
ghost use Rattle.std.specs.Prelude.{◌≡◌, [], ◌∷◌, IfOk, codes, length, replicate};
ghost use Rattle.serde_json.specs.View.{view};
ghost use Rattle.pals_model.specs.ComponentInputs.{root_inputs};
ghost use Rattle.scenario_values.specs.ResultCombinators.{Answers, Makes};
ghost use Rattle.scenario_values.specs.FaultPlaces.{inside};
ghost use Rattle.scenario_json.specs.InputsAndDelays.{value_list, with_input, inputs_in, delay_list, with_link_delays};
ghost use Rattle.scenario_json.specs.InputsAndDelays.{delays_in};

use pals_base::limits::HOUR;
use pals_base::{ItemList, Kind, Nanos, NoMemory, Tuple};
use scenario_values::json_values::{elements, entries, port_value, whole};
use scenario_values::placed_faults::{Place, out_of_range};
use scenario_values::{DesignNames, ScenarioFault};
use serde_json::Value;
use std::alloc::Global;

// The values of one root in port.
#[tactic(auto, unfolding(crate::specs::InputsAndDelays::value_list))]
fn value_list(alloc: Global, kind: Kind, name: &str, value: &Value) -> Result<Tuple, ScenarioFault>
    ensures { Answers (value_list kind (inside (codes "inputs") name.now) (view value.now)) result }
{
    let items = elements(alloc, Place::Name("inputs", name), value)?;
    let mut values = ItemList::new(alloc);
    for (at, item) in items.iter().enumerate() {
        let place = Place::NameIndex("inputs", name, at);
        let port = port_value(alloc, kind, place, item)?;
        values.push(port)?;
    }
    Ok(values)
}

// Stores the values of one root in port.
#[tactic(auto, unfolding(crate::specs::InputsAndDelays::with_input))]
fn add_input(
    alloc: Global,
    names: &DesignNames<'_>,
    lists: &mut ItemList<Tuple>,
    name: &str,
    value: &Value,
) -> Result<(), ScenarioFault>
    requires { length lists.old ≡ length (root_inputs names.now) }
    ensures value { Makes lists.new (with_input names.now lists.old (name.now, view value.now)) result }
    ensures len { length lists.new ≡ length lists.old }
{
    let root = names.root(alloc, Place::Name("inputs", name), name)?;
    let values = value_list(alloc, names.root_kind(name), name, value)?;
    lists.set(root, values);
    Ok(())
}

/// Returns an empty list for each of `count` root in ports. Errors: out of memory.
pub fn no_inputs(alloc: Global, count: usize) -> Result<ItemList<Tuple>, NoMemory>
    ensures { IfOk result (λ lists. lists ≡ replicate count []) }
{
    let mut lists = ItemList::new(alloc);
    for _done in 0..count {
        lists.push(ItemList::new(alloc))?;
    }
    Ok(lists)
}

/// Returns a list for each root in port; empty if the field does not name the port. Errors: the first fault of
/// the field.
#[tactic(auto, unfolding(crate::specs::InputsAndDelays::inputs_in))]
pub fn read_inputs(
    alloc: Global,
    names: &DesignNames<'_>,
    value: &Value,
) -> Result<ItemList<Tuple>, ScenarioFault>
    ensures { Answers (inputs_in names.now (view value.now)) result }
{
    let members = entries(alloc, Place::Field("inputs"), value)?;
    let mut lists = no_inputs(alloc, names.root_count())?;
    for (name, item) in members.iter() {
        add_input(alloc, names, &mut lists, name.as_str(), item)?;
    }
    Ok(lists)
}

// The delays of one link.
#[tactic(auto, unfolding(crate::specs::InputsAndDelays::delay_list))]
fn delay_list(alloc: Global, name: &str, value: &Value) -> Result<ItemList<Nanos>, ScenarioFault>
    ensures { Answers (delay_list (inside (codes "delays") name.now) (view value.now)) result }
{
    let items = elements(alloc, Place::Name("delays", name), value)?;
    if items.len() == 0 {
        return Err(out_of_range(alloc, Place::Name("delays", name)));
    }
    let mut delays = ItemList::new(alloc);
    for (at, item) in items.iter().enumerate() {
        let place = Place::NameIndex("delays", name, at);
        let delay = whole(alloc, place, 0, HOUR, item)?;
        delays.push(delay)?;
    }
    Ok(delays)
}

// Stores the delays of one link.
#[tactic(auto, unfolding(crate::specs::InputsAndDelays::with_link_delays))]
fn add_delays(
    alloc: Global,
    names: &DesignNames<'_>,
    lists: &mut ItemList<ItemList<Nanos>>,
    name: &str,
    value: &Value,
) -> Result<(), ScenarioFault>
    requires { length lists.old ≡ length names.now.links }
    ensures value { Makes lists.new (with_link_delays names.now lists.old (name.now, view value.now)) result }
    ensures len { length lists.new ≡ length lists.old }
{
    let link = names.link(alloc, Place::Name("delays", name), name)?;
    let delays = delay_list(alloc, name, value)?;
    lists.set(link.0 as usize, delays);
    Ok(())
}

/// Returns, for each link, the minimum network delay. Errors: out of memory.
pub fn least_delays(
    alloc: Global,
    names: &DesignNames<'_>,
) -> Result<ItemList<ItemList<Nanos>>, NoMemory>
    ensures { IfOk result (λ lists. lists ≡ replicate (length names.now.links) (names.now.gamma.mu_min ∷ [])) }
{
    let least = names.design().gamma().mu_min;
    let count = names.design().links().len();
    let mut lists = ItemList::new(alloc);
    for _done in 0..count {
        lists.push(ItemList::from_slice(alloc, &[least])?)?;
    }
    Ok(lists)
}

/// Returns a list for each link; only the minimum network delay if the field does not name the link. Errors:
/// the first fault of the field.
#[tactic(auto, unfolding(crate::specs::InputsAndDelays::delays_in))]
pub fn read_delays(
    alloc: Global,
    names: &DesignNames<'_>,
    value: &Value,
) -> Result<ItemList<ItemList<Nanos>>, ScenarioFault>
    ensures { Answers (delays_in names.now (view value.now)) result }
{
    let members = entries(alloc, Place::Field("delays"), value)?;
    let mut lists = least_delays(alloc, names)?;
    for (name, item) in members.iter() {
        add_delays(alloc, names, &mut lists, name.as_str(), item)?;
    }
    Ok(lists)
}
