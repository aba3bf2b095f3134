//! Checks of the names in declarations, except for duplicates.
#![tactic(auto, using(aadl_names::proofs::FirstFaultSoFar::found_append))]

ghost use Rattle.std.specs.Prelude.{◌≡◌, not, Some, OnOk, slice_get};
ghost use Rattle.aadl_tree.specs.Names.{same_name};
ghost use Rattle.aadl_tree.specs.proof.PackageViews.{placed};
ghost use Rattle.aadl_tree.specs.proof.DeclarationViews.{implementation_view, declaration_view};
ghost use Rattle.aadl_tree.specs.proof.PlaceMaps.{kept_place};
ghost use Rattle.aadl_names.specs.proof.FirstFaultSoFar.{found};
ghost use Rattle.aadl_names.specs.DuplicateNames.{wrong_if};
ghost use Rattle.aadl_names.specs.QualifiedNameSpellings.{spelled_name};
ghost use Rattle.aadl_names.specs.NameResolution.{implementation_at};
ghost use Rattle.aadl_names.specs.PackageNameFaults as spec;
ghost use Rattle.name_faults.specs.proof.TypePortNames.{AreAllNamesOf};
ghost use Rattle.name_faults.specs.proof.NumberedImplementations.{StandsAt};

use crate::behaviours::{TypedImplementation, check_behaviours};
use crate::implementations::check_outside_behaviours;
use crate::types::check_type;
use crate::{AllPortNames, names_at};
use aadl_names::FaultFinder;
use aadl_names::qualified_names::spelled_name;
use aadl_tree::{Declaration, Implementation, PackageTree};
use aadl_uses::{PackageConnections, Uses};
use std::alloc::AllocError;

// Whether the number is the number of the root's type.
fn is_root_type(uses: &Uses<'_>, root: usize, number: usize) -> bool
    ensures { result ≡ spec.is_same_number (spec.root_type (placed uses.now.names.tree.now)
        (implementation_at (placed uses.now.names.tree.now) root)) number }
{
    match uses.type_number(root) {
        Some(of_root) => of_root == number,
        None => false,
    }
}

// Reports the faults of the names in the implementation with a number.
fn check_implementation(
    finder: &mut FaultFinder,
    wires: &PackageConnections<'_>,
    all: &AllPortNames,
    number: usize,
    of_root: bool,
    x: &Implementation,
) -> Result<(), AllocError>
    requires all { AreAllNamesOf (placed wires.now.uses.names.tree.now) all.now }
    requires number { StandsAt (placed wires.now.uses.names.tree.now) number (implementation_view kept_place x.now) }
    ensures { OnOk result (finder.new ≡ found finder.old
        (spec.implementation_faults (placed wires.now.uses.names.tree.now) of_root
        (implementation_view kept_place x.now))) }
{
    check_outside_behaviours(finder, wires, number, of_root, x)?;
    let of_type = wires.uses.type_number(number);
    let typed = TypedImplementation {
        tree: wires.uses.names.tree,
        of_type,
        roles: &names_at(all, of_type).roles,
        implementation: x,
    };
    check_behaviours(finder, &typed)
}

// Reports the faults of the names in the declaration with a number.
fn check_declaration(
    finder: &mut FaultFinder,
    wires: &PackageConnections<'_>,
    all: &AllPortNames,
    root: usize,
    number: usize,
    declaration: &Declaration,
) -> Result<(), AllocError>
    requires all { AreAllNamesOf (placed wires.now.uses.names.tree.now) all.now }
    requires number { slice_get (placed wires.now.uses.names.tree.now).declarations number
        ≡ Some (declaration_view kept_place declaration.now) }
    ensures { OnOk result (finder.new ≡ found finder.old
        (spec.declaration_faults (placed wires.now.uses.names.tree.now) root
        (number, declaration_view kept_place declaration.now))) }
{
    match declaration {
        Declaration::Type(x) => check_type(finder, is_root_type(&wires.uses, root, number), x),
        Declaration::Implementation(x) => {
            check_implementation(finder, wires, all, number, root == number, x)
        }
    }
}

// Reports a wrong name at the end of the package.
fn check_end_name(finder: &mut FaultFinder, tree: &PackageTree) -> Result<(), AllocError>
    ensures { OnOk result (finder.new ≡ found finder.old
        (wrong_if (not (same_name (spelled_name (placed tree.now).end_name) (spelled_name (placed tree.now).name)))
        (placed tree.now).end_name.first.at)) }
{
    let alloc = finder.alloc();
    let name = spelled_name(alloc, &tree.name)?;
    let end_name = spelled_name(alloc, &tree.end_name)?;
    finder.wrong_if(
        !end_name.as_str().eq_ignore_ascii_case(name.as_str()),
        tree.end_name.first.at,
    );
    Ok(())
}

/// Reports the faults of the names in all declarations, and a wrong name at the end of the package. Errors: out
/// of memory.
pub fn check_declarations(
    finder: &mut FaultFinder,
    wires: &PackageConnections<'_>,
    all: &AllPortNames,
    root: usize,
) -> Result<(), AllocError>
    requires { AreAllNamesOf (placed wires.now.uses.names.tree.now) all.now }
    ensures { OnOk result (finder.new ≡ found finder.old
        (spec.wrong_names (placed wires.now.uses.names.tree.now) root)) }
{
    check_end_name(finder, wires.uses.names.tree)?;
    for (number, declaration) in wires.uses.names.tree.declarations.iter().enumerate() {
        check_declaration(finder, wires, all, root, number, declaration)?;
    }
    Ok(())
}
