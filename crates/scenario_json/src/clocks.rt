//! Parses the field of clocks: a list of readings for each node, or the virtual-time schedule.
ghost use Rattle.std.specs.Prelude.{◌≡◌, [], IfOk, codes, length, replicate};
ghost use Rattle.std.specs.List.Sorted.{IsNonDecreasing};
ghost use Rattle.serde_json.specs.View.{view};
ghost use Rattle.pals_clock.specs.ClockStates.{AreReadings, unpicked};
ghost use Rattle.scenario_values.specs.ResultCombinators.{Answers, Makes};
ghost use Rattle.scenario_values.specs.FaultPlaces.{inside};
ghost use Rattle.scenario_json.specs.Clocks.{reading_list, with_clock, clock_lists, is_meet, clocks_in};

use pals_base::limits::{LIST_ITEMS, READING};
use pals_base::{ItemList, Nanos, NoMemory};
use pals_clock::{Clocks, ListClock};
use scenario_values::json_values::{entries, short_list, whole};
use scenario_values::placed_faults::Place;
use scenario_values::{DesignNames, ScenarioFault};
use serde_json::Value;
use std::alloc::Global;

// The readings of one clock, which never decrease.
#[tactic(auto, unfolding(crate::specs::Clocks::reading_list))]
fn reading_list(alloc: Global, name: &str, value: &Value) -> Result<ItemList<Nanos>, ScenarioFault>
    ensures value { Answers (reading_list (inside (codes "clocks") name.now) (view value.now)) result }
    ensures order { IfOk result IsNonDecreasing }
    ensures range { IfOk result AreReadings }
{
    let items = short_list(alloc, Place::Name("clocks", name), LIST_ITEMS, value)?;
    let mut readings = ItemList::new(alloc);
    let mut last = 0;
    for (at, item) in items.iter().enumerate() {
        let place = Place::NameIndex("clocks", name, at);
        let reading = whole(alloc, place, last, READING, item)?;
        readings.push(reading)?;
        last = reading;
    }
    Ok(readings)
}

// Stores the clock of one node.
#[tactic(auto, unfolding(crate::specs::Clocks::with_clock))]
fn add_clock(
    alloc: Global,
    names: &DesignNames<'_>,
    clocks: &mut ItemList<ListClock>,
    name: &str,
    value: &Value,
) -> Result<(), ScenarioFault>
    requires { length clocks.old ≡ length names.now.components }
    ensures value { Makes clocks.new (with_clock names.now clocks.old (name.now, view value.now)) result }
    ensures len { length clocks.new ≡ length clocks.old }
{
    let node = names.node(alloc, Place::Name("clocks", name), name)?;
    let readings = reading_list(alloc, name, value)?;
    clocks.set(node.0 as usize, ListClock::new(readings));
    Ok(())
}

// A clock without readings for each of `count` nodes.
fn empty_clocks(alloc: Global, count: usize) -> Result<ItemList<ListClock>, NoMemory>
    ensures { IfOk result (λ clocks. clocks ≡ replicate count (unpicked [])) }
{
    let mut clocks = ItemList::new(alloc);
    for _done in 0..count {
        clocks.push(ListClock::new(ItemList::new(alloc)))?;
    }
    Ok(clocks)
}

// A list for each node; empty if the field does not name the node.
#[tactic(auto, unfolding(crate::specs::Clocks::clock_lists))]
fn clock_lists(
    alloc: Global,
    names: &DesignNames<'_>,
    value: &Value,
) -> Result<Clocks, ScenarioFault>
    ensures { Answers (clock_lists names.now (view value.now)) result }
{
    let members = entries(alloc, Place::Field("clocks"), value)?;
    let mut clocks = empty_clocks(alloc, names.design().components().len())?;
    for (name, item) in members.iter() {
        add_clock(alloc, names, &mut clocks, name.as_str(), item)?;
    }
    Ok(Clocks::Lists(clocks))
}

fn is_meet(value: &Value) -> bool
    ensures { result ≡ is_meet (view value.now) }
{
    match value.as_str() {
        Some(text) => "meet" == text,
        None => false,
    }
}

/// Returns the virtual-time schedule, which ends at one hour, or a list of readings for each node. Errors: the
/// first fault of the field.
#[tactic(auto, unfolding(crate::specs::Clocks::clocks_in))]
pub fn read_clocks(
    alloc: Global,
    names: &DesignNames<'_>,
    value: &Value,
) -> Result<Clocks, ScenarioFault>
    ensures { Answers (clocks_in names.now (view value.now)) result }
{
    if is_meet(value) {
        return Ok(Clocks::Meet);
    }
    clock_lists(alloc, names, value)
}
