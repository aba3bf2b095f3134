//! The times of properties, and the check that they are at most one hour.
ghost use Rattle.std.specs.Prelude.{◌≡◌, ◌*◌, ◌++◌, nat_lt, OnOk};
ghost use Rattle.pals_base.specs.declared.limits.TheConstants.{HOUR};
ghost use Rattle.std.specs.Option.{option_and_then};
ghost use Rattle.aadl_tree.specs.proof.PlaceMaps.{kept_place};
ghost use Rattle.aadl_tree.specs.proof.ValueViews.{figure_view, unit_view, quantity_view, value_view, association_view};
ghost use Rattle.aadl_tree.specs.proof.ValueViews.{associations_view};
ghost use Rattle.aadl_names.specs.PropertyValueShapes as properties;
ghost use Rattle.component_checks.specs.BoundsAndRates.{within_hour, range_within};
ghost use Rattle.component_checks.specs.Times as spec;

use aadl_names::name_comparison::is_spelled;
use aadl_names::time_units::unit_of;
use aadl_names::{PropertyHolder, PropertyName};
use aadl_tree::{Association, Identifier, Quantity, Sign, UnsignedNumber, Value};
use annex_resolve::Violation;
use annex_resolve::violation::NUMBER_TOO_BIG;
use pals_base::limits::HOUR;
use pals_base::{ItemList, Nanos, NoMemory, Text};
use std::alloc::Global;

fn whole_of(figure: &UnsignedNumber) -> Option<u64>
    ensures { result ≡ properties.whole_of (figure_view figure.now) }
{
    match figure {
        UnsignedNumber::Whole(number) if *number >= 0 => Some(*number as u64),
        _ => None,
    }
}

// A unit of time in nanoseconds.
fn unit_in(unit: &Option<Box<Identifier>>) -> Option<u64>
    ensures { result ≡ properties.unit_in (unit_view kept_place unit.now) }
{
    match unit {
        Some(unit) => unit_of(unit.spelling.as_str()),
        None => None,
    }
}

// The length of `number` units, each of `unit` nanoseconds.
#[tactic(auto, using(crate::proofs::TimesWithinAnHour::product_fits))]
fn product(number: u64, unit: u64) -> u128
    ensures { result ≡ number * unit }
{
    u128::from(number) * u128::from(unit)
}

// A number with its unit, if it is a time.
#[tactic(auto, unfolding(aadl_names::specs::PropertyValueShapes::time_in))]
fn time_in(x: &Quantity) -> Option<u128>
    ensures { result ≡ properties.time_in (quantity_view kept_place x.now) }
{
    if is_signed(x.number.sign) {
        return None;
    }
    let number = whole_of(&x.number.figure)?;
    let unit = unit_in(&x.unit)?;
    Some(product(number, unit))
}

fn is_signed(sign: Option<Sign>) -> bool
    ensures { result ≡ properties.is_signed sign }
{
    match sign {
        Some(_) => true,
        None => false,
    }
}

// The value as a time, in nanoseconds.
fn time_of(value: &Value) -> Option<u128>
    ensures { result ≡ properties.time_of (value_view kept_place value.now) }
{
    match value {
        Value::Number { low, high: None } => time_in(low),
        _ => None,
    }
}

// Two times, if both exist.
fn pair_of(low: Option<u128>, high: Option<u128>) -> Option<(u128, u128)>
    ensures { result ≡ properties.pair_of low high }
{
    match low {
        Some(low) => match high {
            Some(high) => Some((low, high)),
            None => None,
        },
        None => None,
    }
}

// The value as a range of times, in nanoseconds.
fn range_of(value: &Value) -> Option<(u128, u128)>
    ensures { result ≡ properties.range_of (value_view kept_place value.now) }
{
    match value {
        Value::Number {
            low,
            high: Some(high),
        } => pair_of(time_in(low), time_in(high)),
        _ => None,
    }
}

fn is_above(time: u128) -> bool
    ensures { result ≡ nat_lt HOUR time }
{
    u128::from(HOUR) < time
}

/// Returns the value as a time in nanoseconds, if it is at most one hour.
pub fn time_within(value: &Value) -> Option<Nanos>
    ensures { result ≡ option_and_then within_hour (properties.time_of (value_view kept_place value.now)) }
{
    match time_of(value) {
        Some(time) => {
            if is_above(time) {
                None
            } else {
                Some(time as u64)
            }
        }
        None => None,
    }
}

/// Returns the value as a range of times in nanoseconds, if both ends are at most one hour.
pub fn range_within(value: &Value) -> Option<(Nanos, Nanos)>
    ensures { result ≡ option_and_then range_within (properties.range_of (value_view kept_place value.now)) }
{
    match range_of(value) {
        Some((low, high)) => {
            if is_above(low) || is_above(high) {
                None
            } else {
                Some((low as u64, high as u64))
            }
        }
        None => None,
    }
}

/// Returns whether a property takes a time or a range, and the value is a time above one hour or a range with
/// such an end.
pub fn is_too_big(property: PropertyName, value: &Value) -> bool
    ensures { result ≡ spec.is_too_big property (value_view kept_place value.now) }
{
    match property {
        PropertyName::Period | PropertyName::Skew => match time_of(value) {
            Some(time) => is_above(time),
            None => false,
        },
        PropertyName::Execution | PropertyName::Network => match range_of(value) {
            Some((low, high)) => is_above(low) || is_above(high),
            None => false,
        },
        PropertyName::Dispatch
        | PropertyName::Timing
        | PropertyName::Adaptor
        | PropertyName::Initial => false,
    }
}

/// Returns the name of a property in violations.
pub fn shown(property: PropertyName) -> &'static str
    ensures { result.now ≡ spec.shown property }
{
    match property {
        PropertyName::Period => "Period",
        PropertyName::Dispatch => "Dispatch_Protocol",
        PropertyName::Timing => "Timing",
        PropertyName::Adaptor => "Input_Adaptor",
        PropertyName::Skew => "Skew",
        PropertyName::Execution => "Execution",
        PropertyName::Network => "Network",
        PropertyName::Initial => "Initial_Value",
    }
}

// Appends a violation if an association gives a property a time above one hour.
#[tactic(auto, using(aadl_tree::proofs::ValueViews::view_out_association))]
fn add_big_as(
    alloc: Global,
    association: &Association,
    property: PropertyName,
    found: &mut ItemList<Violation>,
) -> Result<(), NoMemory>
    ensures { OnOk result (found.new ≡ found.old
        ++ spec.big_as (association_view kept_place association.now) property) }
{
    let named = is_spelled(&association.name, property.name());
    if named && is_too_big(property, &association.value) {
        found.push(Violation {
            at: association.name.first.at,
            number: NUMBER_TOO_BIG,
            details: Text::from_str(alloc, shown(property))?,
        })?;
    }
    Ok(())
}

// Appends the times above one hour in an association, for one kind of property holder.
fn add_association_big(
    alloc: Global,
    holder: PropertyHolder,
    association: &Association,
    found: &mut ItemList<Violation>,
) -> Result<(), NoMemory>
    ensures { OnOk result (found.new ≡ found.old
        ++ spec.association_big holder (association_view kept_place association.now)) }
{
    for property in holder.recognised() {
        add_big_as(alloc, association, *property, found)?;
    }
    Ok(())
}

// Appends the times above one hour in an association, for one kind of property holder, unless the association
// applies elsewhere.
#[tactic(auto, using(aadl_tree::proofs::ValueViews::view_out_association))]
fn add_counted_big(
    alloc: Global,
    holder: PropertyHolder,
    association: &Association,
    found: &mut ItemList<Violation>,
) -> Result<(), NoMemory>
    ensures { OnOk result (found.new ≡ found.old
        ++ spec.counted_big holder (association_view kept_place association.now)) }
{
    if !association.applies_to.is_empty() {
        return Ok(());
    }
    add_association_big(alloc, holder, association, found)
}

/// Appends the times above one hour in a list of properties, for one kind of property holder. Ignores
/// associations that apply elsewhere. Errors: out of memory.
pub fn add_times_too_big(
    alloc: Global,
    holder: PropertyHolder,
    list: &[Association],
    found: &mut ItemList<Violation>,
) -> Result<(), NoMemory>
    ensures { OnOk result (found.new ≡ found.old ++ spec.list_big holder (associations_view kept_place list.now)) }
{
    for association in list {
        add_counted_big(alloc, holder, association, found)?;
    }
    Ok(())
}
