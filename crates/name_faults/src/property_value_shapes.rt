//! The shapes of property values.

ghost use Rattle.std.specs.Prelude.{◌≡◌};
ghost use Rattle.std.specs.Option.{is_some};
ghost use Rattle.aadl_tree.specs.proof.ValueViews.{figure_view, unit_view, quantity_view, value_view, values_view};
ghost use Rattle.aadl_tree.specs.Values.{list};
ghost use Rattle.aadl_tree.specs.proof.PlaceMaps.{kept_place};
ghost use Rattle.aadl_names.specs.RecognisedProperties as spec;
ghost use Rattle.aadl_names.specs.PropertyValueShapes as property_value_shapes;

use crate::spelled_whole_numbers::is_number;
use aadl_names::PropertyName;
use aadl_names::time_units::unit_of;
use aadl_tree::{Identifier, Quantity, Sign, UnsignedNumber, Value};

// Whether this is a unit of time.
fn is_unit(unit: &Option<Box<Identifier>>) -> bool
    ensures { result ≡ is_some (property_value_shapes.unit_in (unit_view kept_place unit.now)) }
{
    match unit {
        Some(unit) => unit_of(unit.spelling.as_str()).is_some(),
        None => false,
    }
}

fn is_whole(figure: &UnsignedNumber) -> bool
    ensures { result ≡ is_some (property_value_shapes.whole_of (figure_view figure.now)) }
{
    match figure {
        UnsignedNumber::Whole(value) => *value >= 0,
        UnsignedNumber::Real(_) => false,
    }
}

/// Returns whether a quantity is a time: a whole number without a sign, and a unit of time.
#[tactic(auto, using(crate::proofs::ValueShapes::has_time), unfolding(aadl_names::specs::PropertyValueShapes::time_in))]
pub fn is_time(x: &Quantity) -> bool
    ensures { result ≡ is_some (property_value_shapes.time_in (quantity_view kept_place x.now)) }
{
    !is_signed(x.number.sign) && is_whole(&x.number.figure) && is_unit(&x.unit)
}

fn is_signed(sign: Option<Sign>) -> bool
    ensures { result ≡ property_value_shapes.is_signed sign }
{
    match sign {
        Some(_) => true,
        None => false,
    }
}

// The bytes between the quotes of a string.
fn unquoted(bytes: &[u8]) -> &[u8]
    ensures { result.now ≡ property_value_shapes.unquoted bytes.now }
{
    match bytes {
        [_, inner @ .., _] => inner,
        _ => &[],
    }
}

// Whether the text is an initial value: `true`, `false`, or a number with an optional sign.
fn is_initial(bytes: &[u8]) -> bool
    ensures { result ≡ property_value_shapes.is_initial bytes.now }
{
    if bytes == b"true".as_slice() || bytes == b"false".as_slice() {
        return true;
    }
    match bytes {
        [b'-', digits @ ..] => is_number(digits),
        _ => is_number(bytes),
    }
}

fn is_initial_text(value: &Value) -> bool
    ensures { result ≡ property_value_shapes.is_initial_text
        (property_value_shapes.text_of (value_view kept_place value.now)) }
{
    match value {
        Value::Text(bytes) => is_initial(unquoted(bytes.as_slice())),
        _ => false,
    }
}

// Whether the list has exactly one text, and this is an initial value.
fn is_initial_only(values: &[Value]) -> bool
    ensures { result ≡ property_value_shapes.is_initial_text
        (property_value_shapes.only_text (list (values_view kept_place values.now))) }
{
    match values {
        [only] => is_initial_text(only),
        _ => false,
    }
}

// Whether the value is a list of exactly one text, and this is an initial value.
fn is_initial_list(value: &Value) -> bool
    ensures { result ≡ spec.has_shape PropertyName.Initial (value_view kept_place value.now) }
{
    match value {
        Value::List(values) => is_initial_only(values.as_slice()),
        _ => false,
    }
}

fn is_time_value(value: &Value) -> bool
    ensures { result ≡ is_some (property_value_shapes.time_of (value_view kept_place value.now)) }
{
    match value {
        Value::Number { low, high: None } => is_time(low),
        _ => false,
    }
}

fn is_range_value(value: &Value) -> bool
    ensures { result ≡ is_some (property_value_shapes.range_of (value_view kept_place value.now)) }
{
    match value {
        Value::Number {
            low,
            high: Some(high),
        } => is_time(low) && is_time(high),
        _ => false,
    }
}

fn is_text_value(value: &Value) -> bool
    ensures { result ≡ is_some (property_value_shapes.text_of (value_view kept_place value.now)) }
{
    match value {
        Value::Text(_) => true,
        _ => false,
    }
}

fn is_reference(value: &Value) -> bool
    ensures { result ≡ is_some (property_value_shapes.reference_of (value_view kept_place value.now)) }
{
    match value {
        Value::Named(_) => true,
        _ => false,
    }
}

/// Returns whether a value has the shape that a property requires.
pub fn has_shape(property: PropertyName, value: &Value) -> bool
    ensures { result ≡ spec.has_shape property (value_view kept_place value.now) }
{
    match property {
        PropertyName::Period | PropertyName::Skew => is_time_value(value),
        PropertyName::Dispatch | PropertyName::Timing => is_reference(value),
        PropertyName::Adaptor => is_text_value(value),
        PropertyName::Execution | PropertyName::Network => is_range_value(value),
        PropertyName::Initial => is_initial_list(value),
    }
}
