//! Whether two properties, or two values, have the same meaning.
ghost use Rattle.std.specs.Prelude.{◌≡◌, ◌↔◌, IsTrue};
ghost use Rattle.aadl_tree.specs.proof.ValueViews.{value_view, values_view, association_view, associations_view};
ghost use Rattle.aadl_tree.specs.proof.PlaceMaps.{no_place};

use super::lists_and_options::{same_items, same_option};
use super::same_meaning::Same;
use crate::values::{Association, Number, Quantity, UnsignedNumber, Value};

impl Same for UnsignedNumber {
    ghost use Rattle.aadl_tree.specs.Values.{UnsignedNumber};
    ghost use Rattle.aadl_tree.specs.proof.ValueViews.{figure_view};

    ghost Meaning = { UnsignedNumber };

    ghost meaning = { figure_view };

    fn same(&self, other: &UnsignedNumber) -> bool {
        match (self, other) {
            (UnsignedNumber::Whole(left), UnsignedNumber::Whole(right)) => *left == *right,
            (UnsignedNumber::Real(left), UnsignedNumber::Real(right)) => left.as_slice()
                == right.as_slice(),
            _ => false,
        }
    }
}

impl Same for Number {
    ghost use Rattle.aadl_tree.specs.Values.{Number};
    ghost use Rattle.aadl_tree.specs.proof.ValueViews.{number_view};

    ghost Meaning = { Number };

    ghost meaning = { number_view };

    fn same(&self, other: &Number) -> bool {
        self.sign == other.sign && self.figure.same(&other.figure)
    }
}

impl Same for Quantity {
    ghost use Rattle.aadl_tree.specs.Values.{Quantity};
    ghost use Rattle.aadl_tree.specs.proof.ValueViews.{quantity_view};
    ghost use Rattle.aadl_tree.specs.proof.PlaceMaps.{no_place};

    ghost Meaning = { Quantity (Unit {0}) };

    ghost meaning = { quantity_view no_place };

    fn same(&self, other: &Quantity) -> bool {
        self.number.same(&other.number) && same_option(&self.unit, &other.unit)
    }
}

/// Returns whether two values have the same meaning. The recursion is as deep as the trees.
#[cycle(same_value)]
pub fn same_value(left: &Value, right: &Value) -> bool
    ensures { IsTrue result ↔ (value_view no_place left.now ≡ value_view no_place right.now) }
{
    match (left, right) {
        (Value::List(left), Value::List(right)) => same_values(left, right),
        (Value::Record(left), Value::Record(right)) => same_associations(left, right),
        (Value::Text(left), Value::Text(right)) => left.as_slice() == right.as_slice(),
        (Value::Reference(left), Value::Reference(right)) => left.same(right),
        (Value::Classifier(left), Value::Classifier(right)) => left.same(right),
        (Value::Named(left), Value::Named(right)) => left.same(right),
        (
            Value::Number { low, high },
            Value::Number {
                low: other_low,
                high: other_high,
            },
        ) => low.same(other_low) && same_option(high, other_high),
        _ => false,
    }
}

// Whether two lists of values have the same meaning.
#[cycle(same_value)]
fn same_values(left: &[Value], right: &[Value]) -> bool
    ensures { IsTrue result ↔ (values_view no_place left.now ≡ values_view no_place right.now) }
{
    if left.len() != right.len() {
        return false;
    }
    for at in 0..left.len() {
        if !same_value(&left[at], &right[at]) {
            return false;
        }
    }
    true
}

// Whether two properties have the same meaning.
#[cycle(same_value)]
fn same_association(left: &Association, right: &Association) -> bool
    ensures { IsTrue result ↔ (association_view no_place left.now ≡ association_view no_place right.now) }
{
    left.name.same(&right.name)
        && left.operator == right.operator
        && left.constant == right.constant
        && same_value(&left.value, &right.value)
        && same_items(left.applies_to.as_slice(), right.applies_to.as_slice())
}

/// Returns whether two lists of properties have the same meaning.
#[cycle(same_value)]
pub fn same_associations(left: &[Association], right: &[Association]) -> bool
    ensures { IsTrue result ↔ (associations_view no_place left.now ≡ associations_view no_place right.now) }
{
    if left.len() != right.len() {
        return false;
    }
    for at in 0..left.len() {
        if !same_association(&left[at], &right[at]) {
            return false;
        }
    }
    true
}
