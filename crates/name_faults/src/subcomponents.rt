//! Checks of the names in subcomponents.
#![tactic(auto, using(aadl_names::proofs::FirstFaultSoFar::found_append))]

ghost use Rattle.std.specs.Prelude.{◌≡◌, OnOk, flat_map, option_map, option_copied};
ghost use Rattle.std.specs.Option.{option_and_then};
ghost use Rattle.aadl_tree.specs.proof.PackageViews.{placed};
ghost use Rattle.aadl_tree.specs.proof.NameViews.{reference_view};
ghost use Rattle.aadl_tree.specs.proof.DeclarationViews.{implementation_view, subcomponent_view};
ghost use Rattle.aadl_tree.specs.proof.PlaceMaps.{kept_place};
ghost use Rattle.aadl_names.specs.proof.FirstFaultSoFar.{found};
ghost use Rattle.aadl_names.specs.NameResolution.{implementation_at, referred};
ghost use Rattle.aadl_names.specs.PackageNameFaults as spec;
ghost use Rattle.name_faults.specs.proof.NumberedImplementations.{StandsAt};

use crate::check_properties;
use aadl_names::declarations_by_number::implementation_at;
use aadl_names::qualified_names::spelled_reference;
use aadl_names::{FaultFinder, PropertyHolder};
use aadl_tree::{Category, Implementation, PackageTree, Reference, Subcomponent};
use aadl_uses::Uses;
use std::alloc::AllocError;

/// Returns the byte offset of the first word of a reference.
pub fn reference_at(reference: &Reference) -> usize
    ensures { result ≡ spec.reference_at (reference_view kept_place reference.now) }
{
    match reference.qualifiers.as_slice() {
        [word, ..] => word.at,
        [] => reference.type_name.at,
    }
}

/// Returns whether two categories are equal.
pub fn same_category(a: Category, b: Category) -> bool
    ensures { result ≡ spec.same_category a b }
{
    a == b
}

// Whether a component of one category may contain a component of the other.
fn may_contain(outer: Category, inner: Category) -> bool
    ensures { result ≡ spec.may_contain outer inner }
{
    match outer {
        Category::System => !same_category(Category::Thread, inner),
        Category::Process => same_category(Category::Thread, inner),
        Category::Thread => false,
    }
}

fn implementation_of(tree: &PackageTree, number: Option<usize>) -> Option<&Implementation>
    ensures { option_map (implementation_view kept_place) (option_copied result)
        ≡ option_and_then (implementation_at (placed tree.now)) number }
{
    implementation_at(tree, number?)
}

fn unknown_target(finder: &mut FaultFinder, reference: &Reference) -> Result<(), AllocError>
    ensures { OnOk result (finder.new ≡ found finder.old
        (spec.unknown_reference (reference_view kept_place reference.now))) }
{
    let name = spelled_reference(finder.alloc(), reference)?;
    finder.unknown(name.as_str(), reference_at(reference))
}

// Reports a subcomponent whose implementation is undeclared or has another category.
fn check_declared(
    finder: &mut FaultFinder,
    implementation: Option<&Implementation>,
    sub: &Subcomponent,
) -> Result<(), AllocError>
    ensures { OnOk result (finder.new ≡ found finder.old
        (spec.target_faults (subcomponent_view kept_place sub.now)
        (option_map (implementation_view kept_place) (option_copied implementation.entry)))) }
{
    match implementation {
        Some(x) => {
            finder.wrong_if(!same_category(x.category, sub.category), sub.name.at);
            Ok(())
        }
        None => unknown_target(finder, &sub.classifier),
    }
}

// Reports a subcomponent that does not name an implementation, or whose implementation is undeclared or has
// another category.
fn check_target(
    finder: &mut FaultFinder,
    tree: &PackageTree,
    target: Option<usize>,
    sub: &Subcomponent,
) -> Result<(), AllocError>
    requires { target ≡ referred (placed tree.now) (subcomponent_view kept_place sub.now).classifier }
    ensures { OnOk result (finder.new ≡ found finder.old
        (spec.names_faults (placed tree.now) (subcomponent_view kept_place sub.now)
        (subcomponent_view kept_place sub.now).classifier.implementation)) }
{
    match &sub.classifier.implementation {
        Some(_) => check_declared(finder, implementation_of(tree, target), sub),
        None => {
            finder.wrong_if(true, sub.name.at);
            Ok(())
        }
    }
}

// Reports the faults of a subcomponent of a component of the category.
fn check_subcomponent(
    finder: &mut FaultFinder,
    tree: &PackageTree,
    category: Category,
    target: Option<usize>,
    sub: &Subcomponent,
) -> Result<(), AllocError>
    requires { target ≡ referred (placed tree.now) (subcomponent_view kept_place sub.now).classifier }
    ensures { OnOk result (finder.new ≡ found finder.old
        (spec.subcomponent_faults (placed tree.now) category (subcomponent_view kept_place sub.now))) }
{
    finder.wrong_if(!may_contain(category, sub.category), sub.name.at);
    check_target(finder, tree, target, sub)?;
    check_properties(
        finder,
        PropertyHolder::Subcomponent(sub.category),
        sub.properties.as_slice(),
    )
}

/// Reports the faults of the subcomponents of the implementation with a number. Errors: out of memory.
pub fn check_subcomponents(
    finder: &mut FaultFinder,
    uses: &Uses<'_>,
    number: usize,
    x: &Implementation,
) -> Result<(), AllocError>
    requires { StandsAt (placed uses.now.names.tree.now) number (implementation_view kept_place x.now) }
    ensures { OnOk result (finder.new ≡ found finder.old
        (flat_map (spec.subcomponent_faults (placed uses.now.names.tree.now) x.now.category)
        (implementation_view kept_place x.now).subcomponents)) }
{
    let tree = uses.names.tree;
    for (place, sub) in x.subcomponents.iter().enumerate() {
        check_subcomponent(finder, tree, x.category, uses.below(number, place), sub)?;
    }
    Ok(())
}
