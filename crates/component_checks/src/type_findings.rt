//! Checks of the types of ports, variables and initial values.
ghost use Rattle.std.specs.Prelude.{◌≡◌, ◌++◌, OnOk, flat_map, map, option_map, option_copied};
ghost use Rattle.aadl_tree.specs.Names.{identifiers};
ghost use Rattle.aadl_tree.specs.proof.PlaceMaps.{kept_place};
ghost use Rattle.aadl_tree.specs.proof.NameViews.{identifiers_view, reference_view};
ghost use Rattle.aadl_tree.specs.proof.ValueViews.{value_view, values_view, association_view};
ghost use Rattle.aadl_tree.specs.Values.{list};
ghost use Rattle.aadl_tree.specs.proof.DeclarationViews.{feature_view};
ghost use Rattle.aadl_tree.specs.proof.AnnexViews.{variable_view, annex_tree_view};
ghost use Rattle.aadl_names.specs.PropertyValueShapes.{only_text, text_of};
ghost use Rattle.annex_resolve.specs.ExpressionTypesAndFindings.{kind_in};
ghost use Rattle.component_checks.specs.TypeFindings as spec;

use crate::property_lookup::property_in;
use crate::unquoted_strings::unquoted;
use aadl_names::PropertyName;
use aadl_tree::{
    AnnexTree, Association, Direction, Feature, Identifiers, Reference, Value, VariableDeclaration,
};
use annex_resolve::type_names::kind_named;
use annex_resolve::violation::BAD_TYPE;
use annex_resolve::{Violation, add_if, expect};
use pals_base::{ItemList, Kind, NoMemory};
use std::alloc::Global;

/// Returns the type that a reference names, if it is Integer or Boolean.
pub fn kind_in(reference: &Option<Reference>) -> Option<Kind>
    ensures { result ≡ kind_in (option_map (reference_view kept_place) reference.now) }
{
    match reference {
        Some(reference) => kind_named(reference),
        None => None,
    }
}

/// Returns whether a port is an in port.
pub fn is_in(port: &Feature) -> bool
    ensures { result ≡ spec.is_in (feature_view kept_place port.now) }
{
    match port.direction {
        Direction::In => true,
        Direction::Out => false,
    }
}

/// Appends the ports that are neither Integer nor Boolean. Errors: out of memory.
pub fn add_port_findings(
    alloc: Global,
    ports: &[Feature],
    found: &mut ItemList<Violation>,
) -> Result<(), NoMemory>
    ensures { OnOk result (found.new ≡ found.old
        ++ flat_map spec.port_findings (map (feature_view kept_place) ports.now)) }
{
    for port in ports {
        let kind = kind_in(&port.data_type);
        add_if(alloc, found, kind.is_none(), port.name.at, BAD_TYPE)?;
    }
    Ok(())
}

// Appends the variables whose type is neither Integer nor Boolean.
fn add_name_findings(
    alloc: Global,
    kind: Option<Kind>,
    names: &Identifiers,
    found: &mut ItemList<Violation>,
) -> Result<(), NoMemory>
    ensures { OnOk result (found.new ≡ found.old
        ++ flat_map (spec.name_findings kind) (identifiers (identifiers_view kept_place names.now))) }
{
    add_if(alloc, found, kind.is_none(), names.first.at, BAD_TYPE)?;
    for name in &names.rest {
        add_if(alloc, found, kind.is_none(), name.at, BAD_TYPE)?;
    }
    Ok(())
}

// Whether a text is a Boolean literal.
fn is_truth(text: &[u8]) -> bool
    ensures { result ≡ spec.is_truth text.now }
{
    text == b"true".as_slice() || text == b"false".as_slice()
}

// The type of a value that is a text.
fn text_kind(value: &Value) -> Option<Kind>
    ensures { result ≡ spec.text_kind (text_of (value_view kept_place value.now)) }
{
    match value {
        Value::Text(bytes) => {
            if is_truth(unquoted(bytes.as_slice())) {
                Some(Kind::Boolean)
            } else {
                Some(Kind::Integer)
            }
        }
        _ => None,
    }
}

// The type of the only text of a list.
fn only_kind(values: &[Value]) -> Option<Kind>
    ensures { result ≡ spec.text_kind (only_text (list (values_view kept_place values.now))) }
{
    match values {
        [only] => text_kind(only),
        _ => None,
    }
}

// The type of an initial value.
fn first_kind(value: &Value) -> Option<Kind>
    ensures { result ≡ spec.text_kind (only_text (value_view kept_place value.now)) }
{
    match value {
        Value::List(values) => only_kind(values.as_slice()),
        _ => None,
    }
}

// Appends a violation if an initial value does not fit its variable's type.
fn add_first_findings(
    alloc: Global,
    kind: Option<Kind>,
    given: Option<&Association>,
    found: &mut ItemList<Violation>,
) -> Result<(), NoMemory>
    ensures { OnOk result (found.new ≡ found.old
        ++ spec.first_findings kind (option_map (association_view kept_place) (option_copied given.entry))) }
{
    match given {
        Some(given) => expect(
            alloc,
            found,
            given.name.first.at,
            kind,
            first_kind(&given.value),
        ),
        None => Ok(()),
    }
}

// Appends the violations of a declaration of variables.
fn add_variable_findings(
    alloc: Global,
    variable: &VariableDeclaration,
    found: &mut ItemList<Violation>,
) -> Result<(), NoMemory>
    ensures { OnOk result (found.new ≡ found.old ++ spec.variable_findings (variable_view kept_place variable.now)) }
{
    let kind = kind_named(&variable.data_type);
    add_name_findings(alloc, kind, &variable.names, found)?;
    let first = property_in(variable.properties.as_slice(), PropertyName::Initial);
    add_first_findings(alloc, kind, first, found)
}

/// Appends the violations of the variables of a behaviour: types other than Integer and Boolean, and initial
/// values of another type. Errors: out of memory.
pub fn add_variables_findings(
    alloc: Global,
    annex: &AnnexTree,
    found: &mut ItemList<Violation>,
) -> Result<(), NoMemory>
    ensures { OnOk result (found.new ≡ found.old ++ spec.variables_findings (annex_tree_view kept_place annex.now)) }
{
    if let Some(variables) = &annex.variables {
        for variable in variables {
            add_variable_findings(alloc, variable, found)?;
        }
    }
    Ok(())
}
