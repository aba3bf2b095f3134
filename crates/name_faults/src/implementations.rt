//! Checks of the names in implementations, except for the names in their behaviours.
#![tactic(auto, using(aadl_names::proofs::FirstFaultSoFar::found_append))]

ghost use Rattle.std.specs.Prelude.{◌≡◌, OnOk};
ghost use Rattle.aadl_tree.specs.proof.PackageViews.{placed};
ghost use Rattle.aadl_tree.specs.proof.DeclarationViews.{implementation_view};
ghost use Rattle.aadl_tree.specs.proof.PlaceMaps.{kept_place};
ghost use Rattle.aadl_names.specs.proof.FirstFaultSoFar.{found};
ghost use Rattle.aadl_names.specs.NameResolution.{type_number, type_numbered};
ghost use Rattle.aadl_names.specs.PackageNameFaults as spec;
ghost use Rattle.name_faults.specs.proof.NumberedImplementations.{StandsAt};

use crate::annexes::check_variables;
use crate::check_properties;
use crate::connections::check_connections;
use crate::subcomponents::{check_subcomponents, same_category};
use aadl_names::declarations_by_number::type_numbered;
use aadl_names::qualified_names::spelled_implementation;
use aadl_names::{FaultFinder, PropertyHolder};
use aadl_tree::{Category, Implementation, PackageTree};
use aadl_uses::PackageConnections;
use std::alloc::AllocError;

// Whether the type with a number exists and has the category.
fn has_type(tree: &PackageTree, of_type: Option<usize>, category: Category) -> bool
    ensures { result ≡ spec.has_type category (type_numbered (placed tree.now) of_type) }
{
    match type_numbered(tree, of_type) {
        Some(declaration) => same_category(declaration.category, category),
        None => false,
    }
}

// Reports a wrong name at the end, and a type that is undeclared or has another category.
fn check_heading(
    finder: &mut FaultFinder,
    tree: &PackageTree,
    of_type: Option<usize>,
    x: &Implementation,
) -> Result<(), AllocError>
    requires { of_type ≡ type_number (placed tree.now) (implementation_view kept_place x.now) }
    ensures { OnOk result (finder.new ≡ found finder.old
        (spec.heading_faults (placed tree.now) (implementation_view kept_place x.now))) }
{
    let alloc = finder.alloc();
    let name = spelled_implementation(alloc, &x.name)?;
    let end_name = spelled_implementation(alloc, &x.end_name)?;
    finder.wrong_if(
        !end_name.as_str().eq_ignore_ascii_case(name.as_str()),
        x.end_name.component_type.at,
    );
    finder.wrong_if(!has_type(tree, of_type, x.category), x.at);
    Ok(())
}

/// Reports the faults of the names in the implementation with a number, except for the names in its behaviour.
/// Errors: out of memory.
pub fn check_outside_behaviours(
    finder: &mut FaultFinder,
    wires: &PackageConnections<'_>,
    number: usize,
    of_root: bool,
    x: &Implementation,
) -> Result<(), AllocError>
    requires { StandsAt (placed wires.now.uses.names.tree.now) number (implementation_view kept_place x.now) }
    ensures { OnOk result (finder.new ≡ found finder.old
        (spec.outer_faults (placed wires.now.uses.names.tree.now) of_root (implementation_view kept_place x.now))) }
{
    let tree = wires.uses.names.tree;
    check_heading(finder, tree, wires.uses.type_number(number), x)?;
    check_subcomponents(finder, &wires.uses, number, x)?;
    check_connections(finder, wires, number, x)?;
    check_properties(
        finder,
        PropertyHolder::Declaration(x.category, of_root),
        x.properties.as_slice(),
    )?;
    check_variables(finder, x.annexes.as_slice())
}
