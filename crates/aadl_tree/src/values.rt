//! Properties and their values.

use crate::expressions::Sign;
use crate::names::{Identifier, Name, Path, Reference};

/// The operator of a property. Both operators have the same meaning.
#[derive(Clone, Copy, PartialEq)]
pub enum AssociationOperator {
    /// `=>`
    Becomes,
    /// `+=>`
    Appends,
}

/// A property and its value:
/// `name ( "=>" | "+=>" ) [ "constant" ] value [ "applies" "to" path { "," path } ] ";"`.
#[cycle(value)]
pub struct Association {
    pub name: Name,
    pub operator: AssociationOperator,
    /// Whether `constant` is before the value. It has no meaning.
    pub constant: bool,
    pub value: Value,
    /// The paths that the property applies to. Without paths it applies to its owner.
    pub applies_to: Vec<Path>,
}

impl Drop for Association {
    #[cycle(value_drop)]
    fn drop(self) {
        let Association {
            name: _,
            operator: _,
            constant: _,
            value: _,
            applies_to: _,
        } = self;
    }
}

/// The value of a property. Rare contents are boxed, so that a value takes 48 bytes.
#[cycle(value)]
pub enum Value {
    /// `"(" [ value { "," value } ] ")"`
    List(Vec<Value>),
    /// `"[" { property } "]"`
    Record(Vec<Association>),
    /// A string, with its quotes.
    Text(Vec<u8>),
    /// `"reference" "(" path ")"`
    Reference(Box<Path>),
    /// `"classifier" "(" reference ")"`
    Classifier(Box<Reference>),
    /// A name.
    Named(Box<Reference>),
    /// A number with its unit, or a range of two such numbers: `number [ id ] [ ".." number [ id ] ]`.
    Number {
        low: Quantity,
        high: Option<Box<Quantity>>,
    },
}

impl Drop for Value {
    #[cycle(value_drop)]
    fn drop(self) {
        match self {
            Value::List(_) => {}
            Value::Record(_) => {}
            Value::Text(_) => {}
            Value::Reference(_) => {}
            Value::Classifier(_) => {}
            Value::Named(_) => {}
            Value::Number { low: _, high: _ } => {}
        }
    }
}

/// A number with its unit: `number [ id ]`.
pub struct Quantity {
    pub number: Number,
    pub unit: Option<Box<Identifier>>,
}

impl Drop for Quantity {
    fn drop(self) {
        let Quantity { number: _, unit: _ } = self;
    }
}

/// A number: `[ "+" | "-" ] ( whole | real )`.
#[derive(Drop)]
pub struct Number {
    pub sign: Option<Sign>,
    pub figure: UnsignedNumber,
}

/// A number without its sign.
#[derive(Drop)]
pub enum UnsignedNumber {
    /// A whole number.
    Whole(i64),
    /// A real, as the text spells it.
    Real(Box<Vec<u8>>),
}
