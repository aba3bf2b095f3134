//! Parses the field of processors: each with its time for an instruction and the components that it runs.
ghost use Rattle.std.specs.Prelude.{◌≡◌, ◌≤◌, [], IfOk, length, map};
ghost use Rattle.std.specs.List.{list_all};
ghost use Rattle.serde_json.specs.View.{view};
ghost use Rattle.pals_base.specs.declared.limits.TheConstants.{COMPONENTS};
ghost use Rattle.scenario_values.specs.ResultCombinators.{Answers, Makes, Shows, through};
ghost use Rattle.scenario_values.specs.FaultPlaces.{place_text};
ghost use Rattle.scenario_values.specs.FieldValues.{entry_of};
ghost use Rattle.analysis_fields.specs.Processors.{with_member, with_members, nodes_of, is_text, processor_parts};
ghost use Rattle.analysis_fields.specs.Processors.{processor_in, with_processor, first_unplaced, processors_in};

use crate::limits::PROCESSORS;
use pals_base::limits::HOUR;
use pals_base::names::is_word;
use pals_base::{ItemList, Nanos, NoMemory, NodeNo, Text};
use scenario_values::json_values::{elements, entries, is_whole, owned, text, whole};
use scenario_values::placed_faults::{Place, missing, out_of_range, wrong_kind};
use scenario_values::{DesignNames, ScenarioFault};
use serde_json::{Map, Value};
use std::alloc::Global;

/// A processor: its name, which is a word; its time for an instruction, in nanoseconds; and the components that
/// it runs, in ascending order.
pub struct Processor {
    pub name: Text,
    pub nanos: Nanos,
    pub components: ItemList<NodeNo>,
}

impl Drop for Processor {
    fn drop(self) {
        let Processor {
            name: _,
            nanos: _,
            components: _,
        } = self;
    }
}

// Assigns one more component to the processor with this number. `owners` has, for each component, the number of
// its processor, from 1, or 0 if it has none.
#[tactic(auto, unfolding(crate::specs::Processors::with_member))]
fn add_member(
    alloc: Global,
    names: &DesignNames<'_>,
    place: Place<'_>,
    number: usize,
    owners: &mut [usize],
    value: &Value,
) -> Result<(), ScenarioFault>
    requires { length owners.old ≡ length names.now.components }
    ensures { Makes owners.new (with_member names.now (place_text place.entry) number owners.old (view value.now))
        result }
{
    let path = text(alloc, place, value)?;
    let node = names.node(alloc, place, path)?.0 as usize;
    if owners[node] != 0 {
        return Err(out_of_range(alloc, place));
    }
    owners[node] = number;
    Ok(())
}

// Assigns components to the processor with this number.
fn add_members(
    alloc: Global,
    names: &DesignNames<'_>,
    place: Place<'_>,
    number: usize,
    owners: &mut [usize],
    values: &[Value],
) -> Result<(), ScenarioFault>
    requires { length owners.old ≡ length names.now.components }
    ensures { Makes owners.new (with_members names.now (place_text place.entry) number owners.old (map view values.now))
        result }
{
    for value in values {
        add_member(alloc, names, place, number, owners, value)?;
    }
    Ok(())
}

// The components of the processor with this number, in ascending order.
fn nodes_of(alloc: Global, owners: &[usize], number: usize) -> Result<ItemList<NodeNo>, NoMemory>
    requires { length owners.now ≤ COMPONENTS }
    ensures { IfOk result (λ nodes. nodes ≡ nodes_of owners.now number) }
{
    let mut nodes = ItemList::new(alloc);
    for (node, owner) in owners.iter().enumerate() {
        if *owner == number {
            nodes.push(NodeNo(node as u32))?;
        }
    }
    Ok(nodes)
}

fn are_texts(values: &[Value]) -> bool
    ensures { result ≡ list_all is_text (map view values.now) }
{
    for value in values {
        if !value.is_string() {
            return false;
        }
    }
    true
}

// The two fields of a processor: its time for an instruction, and its components.
#[tactic(auto, unfolding(crate::specs::Processors::processor_parts))]
fn processor_parts<'v>(
    alloc: Global,
    place: Place<'_>,
    value: &'v Value,
) -> Result<(&'v Value, &'v [Value]), ScenarioFault>
    ensures { Shows (λ p. (view p.0.now, map view p.1.now)) (processor_parts (place_text place.entry) (view value.now))
        result }
{
    let members = entries(alloc, place, value)?;
    if members.len() != 2 {
        return Err(wrong_kind(alloc, place));
    }
    let Some(nanos) = value.get("nanos") else {
        return Err(wrong_kind(alloc, place));
    };
    let Some(components) = value.get("components") else {
        return Err(wrong_kind(alloc, place));
    };
    let values = elements(alloc, place, components)?;
    if !is_whole(nanos) || !are_texts(values) {
        return Err(wrong_kind(alloc, place));
    }
    Ok((nanos, values))
}

// Parses the processor with this number.
#[tactic(auto, unfolding(crate::specs::Processors::processor_in))]
fn read_processor(
    alloc: Global,
    names: &DesignNames<'_>,
    number: usize,
    owners: &mut [usize],
    name: &str,
    value: &Value,
) -> Result<Processor, ScenarioFault>
    requires { length owners.old ≡ length names.now.components }
    ensures { Shows (λ p. (owners.new, p)) (processor_in names.now owners.old number (name.now, view value.now))
        result }
{
    let place = Place::Name("processors", name);
    if !is_word(name.as_bytes()) {
        return Err(out_of_range(alloc, place));
    }
    let parts = processor_parts(alloc, place, value)?;
    if parts.1.len() == 0 {
        return Err(out_of_range(alloc, place));
    }
    add_members(alloc, names, place, number, owners, parts.1)?;
    let nanos = whole(alloc, place, 1, HOUR, parts.0)?;
    let _design = names.design();
    let name = owned(alloc, name)?;
    let components = nodes_of(alloc, owners, number)?;
    Ok(Processor {
        name,
        nanos,
        components,
    })
}

// The processors of all entries, with their components assigned.
fn place_all(
    alloc: Global,
    names: &DesignNames<'_>,
    owners: &mut [usize],
    members: &Map<String, Value>,
) -> Result<ItemList<Processor>, ScenarioFault>
    requires { length owners.old ≡ length names.now.components }
    ensures { Shows (λ processors. (owners.new, processors))
        (through (with_processor names.now) (owners.old, []) (map entry_of members.now.entries)) result }
{
    let mut processors = ItemList::new(alloc);
    for (name, item) in members.iter() {
        let number = processors.len() + 1;
        let processor = read_processor(alloc, names, number, owners, name.as_str(), item)?;
        processors.push(processor)?;
    }
    Ok(processors)
}

// The first component without a processor.
fn first_unplaced(owners: &[usize]) -> Option<usize>
    ensures { result ≡ first_unplaced owners.now }
{
    owners.iter().position(|owner| *owner == 0)
}

/// Returns the processors, in byte order of their names. Each component has exactly one processor. Errors: the
/// first fault of the field.
#[tactic(auto, unfolding(crate::specs::Processors::processors_in))]
pub fn read_processors(
    alloc: Global,
    names: &DesignNames<'_>,
    value: &Value,
) -> Result<ItemList<Processor>, ScenarioFault>
    ensures { Answers (processors_in names.now (view value.now)) result }
{
    let place = Place::Field("processors");
    let members = entries(alloc, place, value)?;
    if members.len() < 1 || members.len() > PROCESSORS {
        return Err(out_of_range(alloc, place));
    }
    let mut owners = vec![in alloc; 0usize; names.design().components().len()]?;
    let processors = place_all(alloc, names, owners.as_mut_slice(), members)?;
    match first_unplaced(owners.as_slice()) {
        None => Ok(processors),
        Some(node) => {
            let path = names.path(node);
            Err(missing(alloc, Place::Name("processors", path)))
        }
    }
}
