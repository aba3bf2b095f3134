//! Positions in a scenario, and the faults that are reported at them.
ghost use Rattle.std.specs.Prelude.{◌≡◌, ◌≢◌, IfOk};
ghost use Rattle.scenario_values.specs.FaultPlaces.{place_text};

use crate::fault::ScenarioFault;
use pals_base::{NoMemory, Text};
use std::alloc::Global;

/// A place in a scenario: a field, or a name, an index, or a name and an index inside it.
#[derive(Clone, Copy)]
pub enum Place<'a> {
    Field(&'a str),
    Name(&'a str, &'a str),
    Index(&'a str, usize),
    NameIndex(&'a str, &'a str, usize),
}

// The name of a place.
fn named(alloc: Global, place: Place<'_>) -> Result<Text, NoMemory>
    ensures { IfOk result (λ text. text ≡ place_text place.entry) }
{
    let name = match place {
        Place::Field(field) => String::from_str(alloc, field)?,
        Place::Name(field, name) => format!(in alloc; "{field}/{name}")?,
        Place::Index(field, index) => format!(in alloc; "{field}/{index}")?,
        Place::NameIndex(field, name, index) => format!(in alloc; "{field}/{name}/{index}")?,
    };
    Ok(Text::new(name))
}

/// The fault of a field that is missing.
#[cold]
pub fn missing(alloc: Global, place: Place<'_>) -> ScenarioFault
    ensures { result ≢ ScenarioFault.Memory → result ≡ ScenarioFault.Field (place_text place.entry) }
{
    match named(alloc, place) {
        Ok(name) => ScenarioFault::Field { name },
        Err(_) => ScenarioFault::Memory,
    }
}

/// The fault of another kind of value.
#[cold]
pub fn wrong_kind(alloc: Global, place: Place<'_>) -> ScenarioFault
    ensures { result ≢ ScenarioFault.Memory → result ≡ ScenarioFault.WrongKind (place_text place.entry) }
{
    match named(alloc, place) {
        Ok(name) => ScenarioFault::WrongKind { name },
        Err(_) => ScenarioFault::Memory,
    }
}

/// The fault of a name that nothing has.
#[cold]
pub fn unknown(alloc: Global, place: Place<'_>) -> ScenarioFault
    ensures { result ≢ ScenarioFault.Memory → result ≡ ScenarioFault.Unknown (place_text place.entry) }
{
    match named(alloc, place) {
        Ok(name) => ScenarioFault::Unknown { name },
        Err(_) => ScenarioFault::Memory,
    }
}

/// The fault of a number or a count out of its range.
#[cold]
pub fn out_of_range(alloc: Global, place: Place<'_>) -> ScenarioFault
    ensures { result ≢ ScenarioFault.Memory → result ≡ ScenarioFault.OutOfRange (place_text place.entry) }
{
    match named(alloc, place) {
        Ok(name) => ScenarioFault::OutOfRange { name },
        Err(_) => ScenarioFault::Memory,
    }
}
