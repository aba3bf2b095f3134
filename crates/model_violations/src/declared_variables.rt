//! The variables of a behaviour, with their initial values.
ghost use Rattle.std.specs.Prelude.{◌≡◌, ◌++◌, ◌∷◌, [], pos, nat_le, IfOk, OnOk, Some, None, if◌then◌else◌};
ghost use Rattle.aadl_lex.specs.Rules.{decimal, most};
ghost use Rattle.aadl_tree.specs.proof.PlaceMaps.{kept_place};
ghost use Rattle.aadl_tree.specs.proof.NameViews.{identifier_view};
ghost use Rattle.aadl_tree.specs.proof.ValueViews.{value_view, values_view};
ghost use Rattle.aadl_tree.specs.Values.{list};
ghost use Rattle.aadl_tree.specs.proof.AnnexViews.{variable_view, annex_tree_view};
ghost use Rattle.aadl_names.specs.PropertyValueShapes.{only_text, text_of};
ghost use Rattle.model_violations.specs.PortsAndVariables as spec;

use crate::port_or_variable::Declared;
use aadl_names::PropertyName;
use aadl_tree::{AnnexTree, Identifier, Value, VariableDeclaration};
use annex_resolve::type_names::kind_named;
use component_checks::property_lookup::property_in;
use component_checks::unquoted_strings::unquoted;
use pals_base::{ItemList, Kind, NoMemory, Text};
use std::alloc::Global;

const MOST: u64 = 9_223_372_036_854_775_807;

// The number with these digits, if it is a whole number of the language.
#[tactic(auto, using(aadl_lex::proofs::ByteScanLoops::decimal_step))]
fn number_of(digits: &[u8]) -> Option<i64>
    ensures { result ≡ (if nat_le (decimal digits.now) most then Some (pos (decimal digits.now)) else None) }
{
    let mut value: u64 = 0;
    for byte in digits {
        if byte.is_ascii_digit() {
            let digit = u64::from(*byte - b'0');
            if value > (MOST - digit) / 10 {
                return None;
            }
            value = 10 * value + digit;
        }
    }
    Some(value as i64)
}

// The number with these digits, or 0 if it is above the maximum.
fn whole_of(digits: &[u8]) -> i64
    ensures { result ≡ spec.whole_of digits.now }
{
    match number_of(digits) {
        Some(number) => number,
        None => 0,
    }
}

// The value in a text.
fn value_of(text: &[u8]) -> i64
    ensures { result ≡ spec.value_of text.now }
{
    if text == b"true".as_slice() {
        return 1;
    }
    match text {
        [b'-', digits @ ..] => 0 - whole_of(digits),
        _ => whole_of(text),
    }
}

fn text_value(value: &Value) -> i64
    ensures { result ≡ spec.value_in (text_of (value_view kept_place value.now)) }
{
    match value {
        Value::Text(bytes) => value_of(unquoted(bytes.as_slice())),
        _ => 0,
    }
}

// The value of the only text of a list.
fn only_value(values: &[Value]) -> i64
    ensures { result ≡ spec.value_in (only_text (list (values_view kept_place values.now))) }
{
    match values {
        [only] => text_value(only),
        _ => 0,
    }
}

// The initial value that a property gives.
fn value_in(value: &Value) -> i64
    ensures { result ≡ spec.value_in (only_text (value_view kept_place value.now)) }
{
    match value {
        Value::List(values) => only_value(values.as_slice()),
        _ => 0,
    }
}

// The initial value of the variables of a declaration.
fn first_of(variable: &VariableDeclaration) -> i64
    ensures { result ≡ spec.first_of (variable_view kept_place variable.now) }
{
    match property_in(variable.properties.as_slice(), PropertyName::Initial) {
        Some(given) => value_in(&given.value),
        None => 0,
    }
}

fn add_variable(
    alloc: Global,
    kind: Option<Kind>,
    first: i64,
    name: &Identifier,
    variables: &mut ItemList<Declared>,
) -> Result<(), NoMemory>
    ensures { OnOk result (variables.new ≡ variables.old
        ++ spec.variable_of kind first (identifier_view kept_place name.now) ∷ []) }
{
    variables.push(Declared {
        name: Text::from_str(alloc, name.spelling.as_str())?,
        kind,
        first,
    })?;
    Ok(())
}

fn add_variables(
    alloc: Global,
    declaration: &VariableDeclaration,
    variables: &mut ItemList<Declared>,
) -> Result<(), NoMemory>
    ensures { OnOk result (variables.new ≡ variables.old
        ++ spec.variables_in (variable_view kept_place declaration.now)) }
{
    let kind = kind_named(&declaration.data_type);
    let first = first_of(declaration);
    add_variable(alloc, kind, first, &declaration.names.first, variables)?;
    for name in &declaration.names.rest {
        add_variable(alloc, kind, first, name, variables)?;
    }
    Ok(())
}

/// Returns the variables of a behaviour, in order. Errors: out of memory.
pub fn variables_of(alloc: Global, annex: &AnnexTree) -> Result<ItemList<Declared>, NoMemory>
    ensures { IfOk result (λ variables. variables ≡ spec.variables_of (annex_tree_view kept_place annex.now)) }
{
    let mut variables = ItemList::new(alloc);
    if let Some(declarations) = &annex.variables {
        for declaration in declarations {
            add_variables(alloc, declaration, &mut variables)?;
        }
    }
    Ok(variables)
}
