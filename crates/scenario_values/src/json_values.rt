//! JSON values as what fields ask for.
ghost use Rattle.std.specs.Prelude.{◌≡◌, ◌≤◌, map, IfOk, IfErr};
ghost use Rattle.serde_json.specs.View.{view};
ghost use Rattle.scenario_values.specs.ResultCombinators.{Answers, Shows};
ghost use Rattle.scenario_values.specs.FaultPlaces.{place_text};
ghost use Rattle.scenario_values.specs.FieldValues.{elements, entries, entry_of, short_list, integer_of, is_whole};
ghost use Rattle.scenario_values.specs.FieldValues.{in_range, whole, number, text, present, port_value};

use crate::fault::ScenarioFault;
use crate::placed_faults::{Place, out_of_range, wrong_kind};
use pals_base::{Kind, PortValue, Text};
use serde_json::{Map, Value};
use std::alloc::Global;

// A whole number. A number that is stored as a float is not one.
fn integer(value: &Value) -> Option<i128>
    ensures { result ≡ integer_of (view value.now) }
{
    match value.as_number() {
        None => None,
        Some(number) => number.as_i128(),
    }
}

/// Whether a value is a whole number, in or out of any range.
pub fn is_whole(value: &Value) -> bool
    ensures { result ≡ is_whole (view value.now) }
{
    integer(value).is_some()
}

// The number, if it is in its range.
fn in_range(
    alloc: Global,
    place: Place<'_>,
    least: u64,
    most: u64,
    integer: i128,
) -> Result<u64, ScenarioFault>
    ensures value { Answers (in_range (place_text place.entry) least most integer) result }
    ensures range { IfOk result (λ n. (least ≤ n) × (n ≤ most)) }
{
    if integer < i128::from(least) || i128::from(most) < integer {
        return Err(out_of_range(alloc, place));
    }
    Ok(integer as u64)
}

/// A whole number from a least to a most.
#[tactic(auto, unfolding(crate::specs::FieldValues::whole))]
pub fn whole(
    alloc: Global,
    place: Place<'_>,
    least: u64,
    most: u64,
    value: &Value,
) -> Result<u64, ScenarioFault>
    ensures value { Answers (whole (place_text place.entry) least most (view value.now)) result }
    ensures range { IfOk result (λ n. (least ≤ n) × (n ≤ most)) }
{
    match integer(value) {
        None => Err(wrong_kind(alloc, place)),
        Some(integer) => in_range(alloc, place, least, most, integer),
    }
}

/// A whole number of 64 bits.
#[tactic(auto, unfolding(crate::specs::FieldValues::number))]
pub fn number(alloc: Global, place: Place<'_>, value: &Value) -> Result<i64, ScenarioFault>
    ensures { Answers (number (place_text place.entry) (view value.now)) result }
{
    let Some(integer) = integer(value) else {
        return Err(wrong_kind(alloc, place));
    };
    if integer < i128::from(i64::MIN) || i128::from(i64::MAX) < integer {
        return Err(out_of_range(alloc, place));
    }
    Ok(integer as i64)
}

/// A text.
#[tactic(auto, unfolding(crate::specs::FieldValues::text))]
pub fn text<'v>(alloc: Global, place: Place<'_>, value: &'v Value) -> Result<&'v str, ScenarioFault>
    ensures { Shows (λ t. t.now) (text (place_text place.entry) (view value.now)) result }
{
    match value.as_str() {
        Some(text) => Ok(text),
        None => Err(wrong_kind(alloc, place)),
    }
}

/// The elements of a list.
#[tactic(auto, using(crate::proofs::JsonLists::values_seen), unfolding(crate::specs::FieldValues::elements))]
pub fn elements<'v>(
    alloc: Global,
    place: Place<'_>,
    value: &'v Value,
) -> Result<&'v [Value], ScenarioFault>
    ensures { Shows (λ vs. map view vs.now) (elements (place_text place.entry) (view value.now)) result }
{
    match value.as_array() {
        Some(list) => Ok(list.as_slice()),
        None => Err(wrong_kind(alloc, place)),
    }
}

/// The elements of a list of no more than `most`.
#[tactic(auto, unfolding(crate::specs::FieldValues::short_list))]
pub fn short_list<'v>(
    alloc: Global,
    place: Place<'_>,
    most: usize,
    value: &'v Value,
) -> Result<&'v [Value], ScenarioFault>
    ensures { Shows (λ vs. map view vs.now) (short_list (place_text place.entry) most (view value.now)) result }
{
    let list = elements(alloc, place, value)?;
    if list.len() > most {
        return Err(out_of_range(alloc, place));
    }
    Ok(list)
}

/// The members of an object, in byte order of their names.
#[tactic(auto, using(crate::proofs::JsonLists::entries_seen), unfolding(crate::specs::FieldValues::entries))]
pub fn entries<'v>(
    alloc: Global,
    place: Place<'_>,
    value: &'v Value,
) -> Result<&'v Map<String, Value>, ScenarioFault>
    ensures { Shows (λ m. map entry_of m.now.entries) (entries (place_text place.entry) (view value.now)) result }
{
    match value.as_object() {
        Some(members) => Ok(members),
        None => Err(wrong_kind(alloc, place)),
    }
}

// A value that is not absent.
fn present(
    alloc: Global,
    kind: Kind,
    place: Place<'_>,
    value: &Value,
) -> Result<PortValue, ScenarioFault>
    ensures { Answers (present kind (place_text place.entry) (view value.now)) result }
{
    match kind {
        Kind::Integer => Ok(PortValue::Present(number(alloc, place, value)?)),
        Kind::Boolean => match value.as_bool() {
            Some(true) => Ok(PortValue::Present(1)),
            Some(false) => Ok(PortValue::Present(0)),
            None => Err(wrong_kind(alloc, place)),
        },
    }
}

/// A value of a port of a type, or null for an absent one.
#[tactic(auto, unfolding(crate::specs::FieldValues::port_value))]
pub fn port_value(
    alloc: Global,
    kind: Kind,
    place: Place<'_>,
    value: &Value,
) -> Result<PortValue, ScenarioFault>
    ensures { Answers (port_value kind (place_text place.entry) (view value.now)) result }
{
    if value.is_null() {
        return Ok(PortValue::Absent);
    }
    present(alloc, kind, place, value)
}

/// A text in memory of its own.
pub fn owned(alloc: Global, text: &str) -> Result<Text, ScenarioFault>
    ensures ok { IfOk result (λ t. t ≡ text.now) }
    ensures err { IfErr result (λ fault. fault ≡ ScenarioFault.Memory) }
{
    Ok(Text::from_str(alloc, text)?)
}
