//! The properties of a declaration without meaning at their position.
ghost use Rattle.std.specs.Prelude.{◌≡◌, ◌++◌, OnOk, map, flat_map};
ghost use Rattle.aadl_tree.specs.proof.PlaceMaps.{kept_place};
ghost use Rattle.aadl_tree.specs.proof.DeclarationViews.{connection_view, declaration_view, feature_view};
ghost use Rattle.aadl_tree.specs.proof.DeclarationViews.{implementation_view, subcomponent_view, type_view};
ghost use Rattle.aadl_tree.specs.proof.AnnexViews.{annex_view, variable_view};
ghost use Rattle.model_violations.specs.IgnoredProperties as spec;

use crate::ignored_list_properties::add_list;
use aadl_names::PropertyHolder;
use aadl_tree::{
    Annex, AnnexContent, Connection, Declaration, Feature, Implementation, Subcomponent,
    TypeDeclaration, VariableDeclaration,
};
use pals_base::{ItemList, NoMemory, Text};
use std::alloc::Global;

// Appends the names at variables.
fn add_variables(
    alloc: Global,
    variables: &[VariableDeclaration],
    found: &mut ItemList<Text>,
) -> Result<(), NoMemory>
    ensures { OnOk result (found.new ≡ found.old
        ++ flat_map spec.variable_ignored (map (variable_view kept_place) variables.now)) }
{
    for variable in variables {
        let list = variable.properties.as_slice();
        add_list(alloc, PropertyHolder::Variable, list, found)?;
    }
    Ok(())
}

// Appends the names at the variables in an annex.
fn add_annex(alloc: Global, annex: &Annex, found: &mut ItemList<Text>) -> Result<(), NoMemory>
    ensures { OnOk result (found.new ≡ found.old ++ spec.annex_ignored (annex_view kept_place annex.now)) }
{
    match &annex.content {
        AnnexContent::Behaviour(tree) => match &tree.variables {
            Some(variables) => add_variables(alloc, variables.as_slice(), found),
            None => Ok(()),
        },
        AnnexContent::Unread(_) => Ok(()),
    }
}

// Appends the names of properties without meaning at the variables in annexes.
fn add_annexes(alloc: Global, annexes: &[Annex], found: &mut ItemList<Text>) -> Result<(), NoMemory>
    ensures { OnOk result (found.new ≡ found.old
        ++ flat_map spec.annex_ignored (map (annex_view kept_place) annexes.now)) }
{
    for annex in annexes {
        add_annex(alloc, annex, found)?;
    }
    Ok(())
}

// Appends the names at ports.
fn add_ports(alloc: Global, ports: &[Feature], found: &mut ItemList<Text>) -> Result<(), NoMemory>
    ensures { OnOk result (found.new ≡ found.old
        ++ flat_map spec.port_ignored (map (feature_view kept_place) ports.now)) }
{
    for port in ports {
        add_list(
            alloc,
            PropertyHolder::Port,
            port.properties.as_slice(),
            found,
        )?;
    }
    Ok(())
}

// Appends the names at subcomponents.
fn add_subs(
    alloc: Global,
    subs: &[Subcomponent],
    found: &mut ItemList<Text>,
) -> Result<(), NoMemory>
    ensures { OnOk result (found.new ≡ found.old
        ++ flat_map spec.sub_ignored (map (subcomponent_view kept_place) subs.now)) }
{
    for sub in subs {
        let holder = PropertyHolder::Subcomponent(sub.category);
        add_list(alloc, holder, sub.properties.as_slice(), found)?;
    }
    Ok(())
}

// Appends the names at connections.
fn add_connections(
    alloc: Global,
    connections: &[Connection],
    found: &mut ItemList<Text>,
) -> Result<(), NoMemory>
    ensures { OnOk result (found.new ≡ found.old
        ++ flat_map spec.connection_ignored (map (connection_view kept_place) connections.now)) }
{
    for connection in connections {
        let list = connection.properties.as_slice();
        add_list(alloc, PropertyHolder::Connection, list, found)?;
    }
    Ok(())
}

// Appends the names in a type.
fn add_type(
    alloc: Global,
    of_root: bool,
    x: &TypeDeclaration,
    found: &mut ItemList<Text>,
) -> Result<(), NoMemory>
    ensures { OnOk result (found.new ≡ found.old ++ spec.type_ignored of_root (type_view kept_place x.now)) }
{
    add_ports(alloc, x.features.as_slice(), found)?;
    let holder = PropertyHolder::Declaration(x.category, of_root);
    add_list(alloc, holder, x.properties.as_slice(), found)?;
    add_annexes(alloc, x.annexes.as_slice(), found)
}

// Appends the names in an implementation.
fn add_implementation(
    alloc: Global,
    of_root: bool,
    x: &Implementation,
    found: &mut ItemList<Text>,
) -> Result<(), NoMemory>
    ensures { OnOk result (found.new ≡ found.old
        ++ spec.implementation_ignored of_root (implementation_view kept_place x.now)) }
{
    add_subs(alloc, x.subcomponents.as_slice(), found)?;
    add_connections(alloc, x.connections.as_slice(), found)?;
    let holder = PropertyHolder::Declaration(x.category, of_root);
    add_list(alloc, holder, x.properties.as_slice(), found)?;
    add_annexes(alloc, x.annexes.as_slice(), found)
}

/// Returns whether a number equals an optional one.
pub fn is_number(number: usize, other: Option<usize>) -> bool
    ensures { result ≡ spec.is_number number other }
{
    match other {
        Some(other) => number == other,
        None => false,
    }
}

/// Appends the names of properties without meaning in the declaration with a number, for the numbers of the
/// root's implementation and type. Errors: out of memory.
pub fn add_declaration(
    alloc: Global,
    root: usize,
    root_type: Option<usize>,
    number: usize,
    declaration: &Declaration,
    found: &mut ItemList<Text>,
) -> Result<(), NoMemory>
    ensures { OnOk result (found.new ≡ found.old
        ++ spec.declaration_ignored root root_type (number, declaration_view kept_place declaration.now)) }
{
    match declaration {
        Declaration::Type(x) => add_type(alloc, is_number(number, root_type), x, found),
        Declaration::Implementation(x) => add_implementation(alloc, number == root, x, found),
    }
}
