//! Parses a whole scenario from its bytes, field by field, or finds its first fault.
ghost use Rattle.std.specs.Prelude.{◌≡◌, find, map, not, option_map, IfOk};
ghost use Rattle.serde_json.specs.View.{view};
ghost use Rattle.pals_clock.specs.declared.clock.Clocks.TheVariants.{Meet};
ghost use Rattle.scenario_values.specs.ResultCombinators.{Answers};
ghost use Rattle.scenario_values.specs.FieldValues.{entry_of};
ghost use Rattle.scenario_json.specs.InputsAndDelays.{inputs_in, delays_in};
ghost use Rattle.scenario_json.specs.Traces.{trace_in};
ghost use Rattle.scenario_json.specs.Clocks.{clocks_in};
ghost use Rattle.scenario_json.specs.Events.{events_in};
ghost use Rattle.analysis_fields.specs.Properties.{properties_in};
ghost use Rattle.analysis_fields.specs.ReplicasAndTheirFaults.{replicas_in, faults_in};
ghost use Rattle.analysis_fields.specs.Plants.{plants_in};
ghost use Rattle.analysis_fields.specs.Processors.{processors_in};
ghost use Rattle.scenario_json.specs.proof.ScenarioValidity.{IsScenarioOf};
ghost use Rattle.scenario_json.specs.Scenarios.{is_field, needs_events, needs_trace, needs_properties};
ghost use Rattle.scenario_json.specs.Scenarios.{needs_processors, rounds_in, inputs_field, events_field, clocks_field};
ghost use Rattle.scenario_json.specs.Scenarios.{delays_field, trace_field, properties_field, replicas_field};
ghost use Rattle.scenario_json.specs.Scenarios.{faults_field, plants_field, processors_field, fields_in, scen};
ghost use Rattle.scenario_json.specs.Scenarios.{IsAnswer};

use crate::scenario::Scenario;
use crate::{
    cells_of, least_delays, no_inputs, read_clocks, read_delays, read_events, read_inputs,
    read_trace,
};
use analysis_fields::{
    Processor, Property, RoundFault, read_faults, read_plants, read_processors, read_properties,
    read_replicas,
};
use pals_base::limits::{CELLS, ROUNDS};
use pals_base::{ItemList, Nanos, NodeNo, Text, Tuple};
use pals_clock::Clocks;
use pals_model::{Delays, Design, Env};
use pals_runs::{Command, Event, Pair};
use scenario_values::json_values::{entries, whole};
use scenario_values::placed_faults::{Place, missing, unknown};
use scenario_values::{DesignNames, ScenarioFault};
use serde_json::{Category, Map, Value};
use std::alloc::Global;

fn is_field(name: &str) -> bool
    ensures { result ≡ is_field name.now }
{
    name == "rounds"
        || name == "inputs"
        || name == "events"
        || name == "clocks"
        || name == "delays"
        || name == "trace"
        || name == "properties"
        || name == "replicas"
        || name == "faults"
        || name == "plants"
        || name == "processors"
}

// The first name of an unknown field.
fn unknown_field(members: &Map<String, Value>) -> Option<&str>
    ensures { option_map (λ name. name.now) result
        ≡ option_map (λ e. e.0) (find (λ e. not (is_field e.0)) (map entry_of members.now.entries)) }
{
    for (name, _) in members.iter() {
        if !is_field(name.as_str()) {
            return Some(name.as_str());
        }
    }
    None
}

fn needs_events(command: &Command) -> bool
    ensures { result ≡ needs_events command.now }
{
    matches!(command, Command::World { .. })
}

fn needs_trace(command: &Command) -> bool
    ensures { result ≡ needs_trace command.now }
{
    matches!(command, Command::Audit { .. })
}

fn needs_properties(command: &Command) -> bool
    ensures { result ≡ needs_properties command.now }
{
    matches!(command, Command::Watch { .. })
}

fn needs_processors(command: &Command) -> bool
    ensures { result ≡ needs_processors command.now }
{
    matches!(command, Command::Budget { .. })
}

// The number of rounds. The number of output values of the run is limited.
#[tactic(auto, unfolding(crate::specs::Scenarios::rounds_in))]
fn rounds_in(alloc: Global, design: &Design, value: &Value) -> Result<u32, ScenarioFault>
    ensures { Answers (rounds_in design.now (view value.now)) result }
{
    let place = Place::Field("rounds");
    let Some(rounds) = value.get("rounds") else {
        return Err(missing(alloc, place));
    };
    let rounds = whole(alloc, place, 1, u64::from(ROUNDS), rounds)?;
    let cells = cells_of(design, rounds);
    if cells > u128::from(CELLS) {
        let cells = cells.min(u128::from(u64::MAX)) as u64;
        return Err(ScenarioFault::TooBig { cells });
    }
    Ok(rounds as u32)
}

fn inputs_in(
    alloc: Global,
    names: &DesignNames<'_>,
    value: &Value,
) -> Result<ItemList<Tuple>, ScenarioFault>
    ensures { Answers (inputs_field names.now (view value.now)) result }
{
    match value.get("inputs") {
        Some(inputs) => read_inputs(alloc, names, inputs),
        None => Ok(no_inputs(alloc, names.root_count())?),
    }
}

fn events_in(
    alloc: Global,
    names: &DesignNames<'_>,
    command: &Command,
    value: &Value,
) -> Result<ItemList<Event>, ScenarioFault>
    ensures { Answers (events_field names.now command.now (view value.now)) result }
{
    let Some(events) = value.get("events") else {
        if needs_events(command) {
            return Err(missing(alloc, Place::Field("events")));
        }
        return Ok(ItemList::new(alloc));
    };
    read_events(alloc, names, command, events)
}

fn clocks_in(alloc: Global, names: &DesignNames<'_>, value: &Value) -> Result<Clocks, ScenarioFault>
    ensures { Answers (clocks_field names.now (view value.now)) result }
{
    match value.get("clocks") {
        Some(clocks) => read_clocks(alloc, names, clocks),
        None => Ok(Clocks::Meet),
    }
}

fn delays_in(
    alloc: Global,
    names: &DesignNames<'_>,
    value: &Value,
) -> Result<ItemList<ItemList<Nanos>>, ScenarioFault>
    ensures { Answers (delays_field names.now (view value.now)) result }
{
    match value.get("delays") {
        Some(delays) => read_delays(alloc, names, delays),
        None => Ok(least_delays(alloc, names)?),
    }
}

fn trace_in(
    alloc: Global,
    command: &Command,
    value: &Value,
) -> Result<ItemList<Text>, ScenarioFault>
    ensures { Answers (trace_field command.now (view value.now)) result }
{
    let Some(trace) = value.get("trace") else {
        if needs_trace(command) {
            return Err(missing(alloc, Place::Field("trace")));
        }
        return Ok(ItemList::new(alloc));
    };
    read_trace(alloc, trace)
}

fn properties_in(
    alloc: Global,
    names: &DesignNames<'_>,
    command: &Command,
    value: &Value,
) -> Result<ItemList<Property>, ScenarioFault>
    ensures { Answers (properties_field names.now command.now (view value.now)) result }
{
    let Some(properties) = value.get("properties") else {
        if needs_properties(command) {
            return Err(missing(alloc, Place::Field("properties")));
        }
        return Ok(ItemList::new(alloc));
    };
    read_properties(alloc, names, properties)
}

fn replicas_in(
    alloc: Global,
    names: &DesignNames<'_>,
    value: &Value,
) -> Result<ItemList<NodeNo>, ScenarioFault>
    ensures { Answers (replicas_field names.now (view value.now)) result }
{
    match value.get("replicas") {
        Some(replicas) => read_replicas(alloc, names, replicas),
        None => Ok(ItemList::new(alloc)),
    }
}

fn faults_in(
    alloc: Global,
    names: &DesignNames<'_>,
    replicas: &[NodeNo],
    value: &Value,
) -> Result<ItemList<RoundFault>, ScenarioFault>
    ensures { Answers (faults_field names.now replicas.now (view value.now)) result }
{
    match value.get("faults") {
        Some(faults) => read_faults(alloc, names, replicas, faults),
        None => Ok(ItemList::new(alloc)),
    }
}

fn plants_in(
    alloc: Global,
    names: &DesignNames<'_>,
    value: &Value,
) -> Result<ItemList<Pair>, ScenarioFault>
    ensures { Answers (plants_field names.now (view value.now)) result }
{
    match value.get("plants") {
        Some(plants) => read_plants(alloc, names, plants),
        None => Ok(ItemList::new(alloc)),
    }
}

fn processors_in(
    alloc: Global,
    names: &DesignNames<'_>,
    command: &Command,
    value: &Value,
) -> Result<ItemList<Processor>, ScenarioFault>
    ensures { Answers (processors_field names.now command.now (view value.now)) result }
{
    let Some(processors) = value.get("processors") else {
        if needs_processors(command) {
            return Err(missing(alloc, Place::Field("processors")));
        }
        return Ok(ItemList::new(alloc));
    };
    read_processors(alloc, names, processors)
}

// The scenario of an object without unknown fields.
#[tactic(auto, unfolding(crate::specs::Scenarios::fields_in))]
fn fields_in(
    alloc: Global,
    names: &DesignNames<'_>,
    command: &Command,
    value: &Value,
) -> Result<Scenario, ScenarioFault>
    ensures { Answers (fields_in (view value.now) names.now command.now) result }
{
    let rounds = rounds_in(alloc, names.design(), value)?;
    let inputs = inputs_in(alloc, names, value)?;
    let events = events_in(alloc, names, command, value)?;
    let clocks = clocks_in(alloc, names, value)?;
    let delays = delays_in(alloc, names, value)?;
    let trace = trace_in(alloc, command, value)?;
    let properties = properties_in(alloc, names, command, value)?;
    let replicas = replicas_in(alloc, names, value)?;
    let faults = faults_in(alloc, names, replicas.as_slice(), value)?;
    let plants = plants_in(alloc, names, value)?;
    let processors = processors_in(alloc, names, command, value)?;
    Ok(Scenario {
        rounds,
        env: Env { lists: inputs },
        events,
        clocks,
        delays: Delays { lists: delays },
        trace,
        properties,
        replicas,
        faults,
        plants,
        processors,
    })
}

// The scenario of a JSON value.
#[tactic(auto, unfolding(crate::specs::Scenarios::scen))]
fn scenario_in(
    alloc: Global,
    design: &Design,
    command: &Command,
    value: &Value,
) -> Result<Scenario, ScenarioFault>
    ensures value { Answers (scen (view value.now) design.now command.now) result }
    ensures kept { IfOk result (IsScenarioOf design.now) }
{
    let members = entries(alloc, Place::Field("scenario"), value)?;
    if let Some(name) = unknown_field(members) {
        return Err(unknown(alloc, Place::Field(name)));
    }
    let names = DesignNames::new(alloc, design)?;
    fields_in(alloc, &names, command, value)
}

/// Parses the scenario of a command for a design. Takes time linear in the number of bytes. Errors: the first
/// fault; `NotJson` if the bytes are not JSON, else the first one in the order of the fields.
pub fn read_scenario(
    alloc: Global,
    bytes: &[u8],
    design: &Design,
    job: Command,
) -> Result<Scenario, ScenarioFault>
    ensures answer { IsAnswer bytes.now design.now job result }
    // facts that users of a scenario need not check again
    ensures kept { IfOk result (IsScenarioOf design.now) }
{
    match Value::from_slice(alloc, bytes) {
        Ok(value) => scenario_in(alloc, design, &job, &value),
        Err(error) if error.classify() == Category::Memory => Err(ScenarioFault::Memory),
        Err(_) => Err(ScenarioFault::NotJson),
    }
}
