//! Duplicate declarations in a package, one namespace after another.
#![tactic(auto, using(aadl_names::proofs::FirstFaultSoFar::found_append))]

ghost use Rattle.std.specs.Prelude.{◌≡◌, Some, OnOk, map, option_map, slice_get};
ghost use Rattle.aadl_tree.specs.proof.PackageViews.{placed};
ghost use Rattle.aadl_tree.specs.proof.DeclarationViews.{implementation_view, declaration_view};
ghost use Rattle.aadl_tree.specs.proof.AnnexViews.{annex_tree_view, annex_view};
ghost use Rattle.aadl_tree.specs.proof.PlaceMaps.{kept_place};
ghost use Rattle.aadl_names.specs.proof.FirstFaultSoFar.{found};
ghost use Rattle.aadl_names.specs.BehaviourAnnexes.{behaviours, first_behaviour};
ghost use Rattle.aadl_names.specs.NameResolution.{type_number};
ghost use Rattle.aadl_names.specs.proof.DuplicatesBesidePorts as spec;
ghost use Rattle.name_faults.specs.proof.TypePortNames.{AreAllNamesOf};

use crate::duplicates_beside_ports::check_port_duplicates;
use crate::namespace_entries::{
    implementation_entries, member_entries, state_entries, type_entries, variable_entries,
};
use crate::port_name_tables::{AllPortNames, names_at, ports_at};
use crate::thread_category::is_thread;
use aadl_names::FaultFinder;
use aadl_names::duplicate_names::check_twice;
use aadl_tree::{Annex, AnnexContent, AnnexTree, Declaration, Implementation, PackageTree};
use aadl_uses::Uses;
use std::alloc::AllocError;

// Reports duplicates among the ports and variables of a behaviour, and among its states.
fn check_in_behaviour(
    finder: &mut FaultFinder,
    tree: &PackageTree,
    all: &AllPortNames,
    of_type: Option<usize>,
    x: &Implementation,
    behaviour: &AnnexTree,
) -> Result<(), AllocError>
    requires all { AreAllNamesOf (placed tree.now) all.now }
    requires of_type { of_type ≡ type_number (placed tree.now) (implementation_view kept_place x.now) }
    ensures { OnOk result (finder.new ≡ found finder.old
        (spec.beside_in_behaviour (placed tree.now) (implementation_view kept_place x.now)
        (annex_tree_view kept_place behaviour.now))) }
{
    let alloc = finder.alloc();
    let variables = variable_entries(alloc, behaviour)?;
    check_port_duplicates(
        finder,
        ports_at(tree, of_type),
        names_at(all, of_type),
        variables.as_slice(),
    )?;
    let states = state_entries(alloc, behaviour)?;
    check_twice(finder, states.as_slice())
}

/// Returns the first behaviour among annexes.
pub fn first_behaviour(annexes: &[Annex]) -> Option<&AnnexTree>
    ensures { option_map (λ b. annex_tree_view kept_place b.now) result
        ≡ first_behaviour (behaviours (map (annex_view kept_place) annexes.now)) }
{
    for annex in annexes {
        match &annex.content {
            AnnexContent::Unread(_) => {}
            AnnexContent::Behaviour(behaviour) => return Some(behaviour),
        }
    }
    None
}

// Reports duplicates among the ports and variables of the first behaviour of a thread's implementation, and
// among its states.
fn check_in_first(
    finder: &mut FaultFinder,
    tree: &PackageTree,
    all: &AllPortNames,
    of_type: Option<usize>,
    x: &Implementation,
) -> Result<(), AllocError>
    requires all { AreAllNamesOf (placed tree.now) all.now }
    requires of_type { of_type ≡ type_number (placed tree.now) (implementation_view kept_place x.now) }
    ensures { OnOk result (finder.new ≡ found finder.old
        (spec.beside_in_first (placed tree.now) (implementation_view kept_place x.now)
        (behaviours (implementation_view kept_place x.now).annexes))) }
{
    let Some(behaviour) = first_behaviour(x.annexes.as_slice()) else {
        return Ok(());
    };
    if is_thread(x.category) {
        check_in_behaviour(finder, tree, all, of_type, x, behaviour)
    } else {
        Ok(())
    }
}

// Reports duplicates in an implementation.
fn check_in_implementation(
    finder: &mut FaultFinder,
    tree: &PackageTree,
    all: &AllPortNames,
    of_type: Option<usize>,
    x: &Implementation,
) -> Result<(), AllocError>
    requires all { AreAllNamesOf (placed tree.now) all.now }
    requires of_type { of_type ≡ type_number (placed tree.now) (implementation_view kept_place x.now) }
    ensures { OnOk result (finder.new ≡ found finder.old
        (spec.beside_in_implementation (placed tree.now) (implementation_view kept_place x.now))) }
{
    let alloc = finder.alloc();
    let members = member_entries(alloc, x)?;
    check_port_duplicates(
        finder,
        ports_at(tree, of_type),
        names_at(all, of_type),
        members.as_slice(),
    )?;
    check_in_first(finder, tree, all, of_type, x)
}

fn check_in(
    finder: &mut FaultFinder,
    uses: &Uses<'_>,
    all: &AllPortNames,
    number: usize,
    declaration: &Declaration,
) -> Result<(), AllocError>
    requires all { AreAllNamesOf (placed uses.now.names.tree.now) all.now }
    requires number { slice_get (placed uses.now.names.tree.now).declarations number
        ≡ Some (declaration_view kept_place declaration.now) }
    ensures { OnOk result (finder.new ≡ found finder.old
        (spec.beside_in (placed uses.now.names.tree.now) (declaration_view kept_place declaration.now))) }
{
    match declaration {
        Declaration::Type(_) => Ok(()),
        Declaration::Implementation(x) => {
            check_in_implementation(finder, uses.names.tree, all, uses.type_number(number), x)
        }
    }
}

/// Reports duplicates among types, among implementations, and in each implementation. Errors: out of memory.
#[tactic(auto, unfolding(aadl_names::specs::proof::DuplicatesBesidePorts::beside_names))]
pub fn check_duplicates(
    finder: &mut FaultFinder,
    uses: &Uses<'_>,
    all: &AllPortNames,
) -> Result<(), AllocError>
    requires { AreAllNamesOf (placed uses.now.names.tree.now) all.now }
    ensures { OnOk result (finder.new ≡ found finder.old (spec.beside_names (placed uses.now.names.tree.now))) }
{
    let alloc = finder.alloc();
    let types = type_entries(alloc, uses.names.tree)?;
    check_twice(finder, types.as_slice())?;
    let implementations = implementation_entries(alloc, uses.names.tree)?;
    check_twice(finder, implementations.as_slice())?;
    for (number, declaration) in uses.names.tree.declarations.iter().enumerate() {
        check_in(finder, uses, all, number, declaration)?;
    }
    Ok(())
}
