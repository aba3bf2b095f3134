//! Parses the field of events, each from its word and its parts.
ghost use Rattle.std.specs.Prelude.{◌≡◌, map, option_and_then};
ghost use Rattle.std.specs.List.{list_all};
ghost use Rattle.serde_json.specs.Find.{as_str};
ghost use Rattle.serde_json.specs.View.{view};
ghost use Rattle.scenario_values.specs.ResultCombinators.{Answers};
ghost use Rattle.scenario_values.specs.FaultPlaces.{place_text};
ghost use Rattle.scenario_values.specs.FieldValues.{is_whole};
ghost use Rattle.scenario_json.specs.Events.{word_of, is_usual, usual_word, node_part, link_parts, reading_parts};
ghost use Rattle.scenario_json.specs.Events.{pass_parts, event_of, event_in, events_in};

use pals_base::limits::{LIST_ITEMS, READING, ROUNDS};
use pals_base::{ItemList, LinkNo, Nanos, NodeNo};
use pals_runs::{Command, Event};
use scenario_values::json_values::{elements, is_whole, short_list, text, whole};
use scenario_values::placed_faults::{Place, out_of_range, wrong_kind};
use scenario_values::{DesignNames, ScenarioFault};
use serde_json::Value;
use std::alloc::Global;

/// The first word of an event.
#[derive(Clone, Copy, PartialEq)]
pub enum EventWord {
    Pass,
    Start,
    Step,
    Finish,
    Send,
    Arrive,
    Drop,
    Repeat,
}

// The kind of event with a name.
fn word_of(name: &str) -> Option<EventWord>
    ensures { result ≡ word_of name.now }
{
    if name == "pass" {
        Some(EventWord::Pass)
    } else if name == "start" {
        Some(EventWord::Start)
    } else if name == "step" {
        Some(EventWord::Step)
    } else if name == "finish" {
        Some(EventWord::Finish)
    } else if name == "send" {
        Some(EventWord::Send)
    } else if name == "arrive" {
        Some(EventWord::Arrive)
    } else if name == "drop" {
        Some(EventWord::Drop)
    } else if name == "repeat" {
        Some(EventWord::Repeat)
    } else {
        None
    }
}

// The kind of event that a value names.
fn word_in(value: &Value) -> Option<EventWord>
    ensures { result ≡ option_and_then word_of (as_str (view value.now)) }
{
    match value.as_str() {
        Some(name) => word_of(name),
        None => None,
    }
}

// Whether the events of this command may have this word.
fn is_usual(command: &Command, word: EventWord) -> bool
    ensures { result ≡ is_usual command.now word }
{
    match command {
        Command::World { loose: true, .. } => word != EventWord::Pass,
        Command::World { loose: false, .. } => word != EventWord::Drop && word != EventWord::Repeat,
        _ => true,
    }
}

// The word of an event, if this command's events may have it.
#[tactic(auto, unfolding(crate::specs::Events::usual_word))]
fn usual_word(
    alloc: Global,
    command: &Command,
    place: Place<'_>,
    value: &Value,
) -> Result<EventWord, ScenarioFault>
    ensures { Answers (usual_word command.now (place_text place.entry) (view value.now)) result }
{
    let Some(word) = word_in(value) else {
        return Err(wrong_kind(alloc, place));
    };
    if !is_usual(command, word) {
        return Err(wrong_kind(alloc, place));
    }
    Ok(word)
}

// The node of an event with a node.
#[tactic(auto, unfolding(crate::specs::Events::node_part))]
fn node_part(
    alloc: Global,
    names: &DesignNames<'_>,
    place: Place<'_>,
    parts: &[Value],
) -> Result<NodeNo, ScenarioFault>
    ensures { Answers (node_part names.now (place_text place.entry) (map view parts.now)) result }
{
    let [path] = parts else {
        return Err(wrong_kind(alloc, place));
    };
    let path = text(alloc, place, path)?;
    names.node(alloc, place, path)
}

// The link and the round of an event with these parts.
#[tactic(auto, unfolding(crate::specs::Events::link_parts))]
fn link_parts(
    alloc: Global,
    names: &DesignNames<'_>,
    place: Place<'_>,
    parts: &[Value],
) -> Result<(LinkNo, u32), ScenarioFault>
    ensures { Answers (link_parts names.now (place_text place.entry) (map view parts.now)) result }
{
    let [name, round] = parts else {
        return Err(wrong_kind(alloc, place));
    };
    let name = text(alloc, place, name)?;
    if !is_whole(round) {
        return Err(wrong_kind(alloc, place));
    }
    let link = names.link(alloc, place, name)?;
    let round = whole(alloc, place, 0, u64::from(ROUNDS), round)?;
    Ok((link, round as u32))
}

// Whether all values are whole numbers.
fn are_whole(values: &[Value]) -> bool
    ensures { result ≡ list_all is_whole (map view values.now) }
{
    for value in values {
        if !is_whole(value) {
            return false;
        }
    }
    true
}

// The readings of a pass.
fn reading_parts(
    alloc: Global,
    place: Place<'_>,
    values: &[Value],
) -> Result<ItemList<Nanos>, ScenarioFault>
    ensures { Answers (reading_parts (place_text place.entry) (map view values.now)) result }
{
    let mut readings = ItemList::new(alloc);
    for value in values {
        let reading = whole(alloc, place, 0, READING, value)?;
        readings.push(reading)?;
    }
    Ok(readings)
}

// The time of a pass, and one reading for each component.
#[tactic(auto, unfolding(crate::specs::Events::pass_parts))]
fn pass_parts(
    alloc: Global,
    names: &DesignNames<'_>,
    place: Place<'_>,
    parts: &[Value],
) -> Result<(Nanos, ItemList<Nanos>), ScenarioFault>
    ensures { Answers (pass_parts names.now (place_text place.entry) (map view parts.now)) result }
{
    let [time, readings] = parts else {
        return Err(wrong_kind(alloc, place));
    };
    let values = elements(alloc, place, readings)?;
    if !is_whole(time) || !are_whole(values) {
        return Err(wrong_kind(alloc, place));
    }
    let time = whole(alloc, place, 0, READING, time)?;
    if values.len() != names.design().components().len() {
        return Err(out_of_range(alloc, place));
    }
    let readings = reading_parts(alloc, place, values)?;
    Ok((time, readings))
}

// The event with a word and the values after it.
#[tactic(auto, unfolding(crate::specs::Events::event_of))]
fn event_of(
    alloc: Global,
    names: &DesignNames<'_>,
    place: Place<'_>,
    word: EventWord,
    parts: &[Value],
) -> Result<Event, ScenarioFault>
    ensures { Answers (event_of names.now (place_text place.entry) word (map view parts.now)) result }
{
    match word {
        EventWord::Pass => {
            let (time, readings) = pass_parts(alloc, names, place, parts)?;
            Ok(Event::Pass { time, readings })
        }
        EventWord::Start => {
            let node = node_part(alloc, names, place, parts)?;
            Ok(Event::Start(node))
        }
        EventWord::Step => {
            let node = node_part(alloc, names, place, parts)?;
            Ok(Event::Step(node))
        }
        EventWord::Finish => {
            let node = node_part(alloc, names, place, parts)?;
            Ok(Event::Finish(node))
        }
        EventWord::Send => {
            let node = node_part(alloc, names, place, parts)?;
            Ok(Event::Send(node))
        }
        EventWord::Arrive => {
            let (link, round) = link_parts(alloc, names, place, parts)?;
            Ok(Event::Arrive(link, round))
        }
        EventWord::Drop => {
            let (link, round) = link_parts(alloc, names, place, parts)?;
            Ok(Event::Drop(link, round))
        }
        EventWord::Repeat => {
            let (link, round) = link_parts(alloc, names, place, parts)?;
            Ok(Event::Repeat(link, round))
        }
    }
}

#[tactic(auto, unfolding(crate::specs::Events::event_in))]
fn read_event(
    alloc: Global,
    names: &DesignNames<'_>,
    command: &Command,
    place: Place<'_>,
    value: &Value,
) -> Result<Event, ScenarioFault>
    ensures { Answers (event_in names.now command.now (place_text place.entry) (view value.now)) result }
{
    let items = elements(alloc, place, value)?;
    let [first, parts @ ..] = items else {
        return Err(wrong_kind(alloc, place));
    };
    let word = usual_word(alloc, command, place, first)?;
    event_of(alloc, names, place, word, parts)
}

/// Returns the events of a world, after a check of their shapes and names. Whether each may occur is checked by
/// the world. Errors: the first fault of the field.
#[tactic(auto, unfolding(crate::specs::Events::events_in))]
pub fn read_events(
    alloc: Global,
    names: &DesignNames<'_>,
    command: &Command,
    value: &Value,
) -> Result<ItemList<Event>, ScenarioFault>
    ensures { Answers (events_in names.now command.now (view value.now)) result }
{
    let items = short_list(alloc, Place::Field("events"), LIST_ITEMS, value)?;
    let mut events = ItemList::new(alloc);
    for (at, item) in items.iter().enumerate() {
        let place = Place::Index("events", at);
        let event = read_event(alloc, names, command, place, item)?;
        events.push(event)?;
    }
    Ok(events)
}
