//! The declarations of a package by their numbers, and the number of an implementation's type.
ghost use Rattle.std.specs.Prelude.{◌≡◌, slice_get, option_map, option_copied, IfOk};
ghost use Rattle.aadl_tree.specs.proof.PackageViews.{placed};
ghost use Rattle.aadl_tree.specs.proof.DeclarationViews.{implementation_view, subcomponent_view, type_view};
ghost use Rattle.aadl_tree.specs.proof.PlaceMaps.{kept_place};
ghost use Rattle.aadl_names.specs.NameResolution as spec;

use crate::package_names::Names;
use aadl_tree::{Declaration, Implementation, PackageTree, Subcomponent, TypeDeclaration};
use std::alloc::{AllocError, Global};

/// The implementation of a number.
pub fn implementation_at<'t>(tree: &'t PackageTree, number: usize) -> Option<&'t Implementation>
    ensures { option_map (implementation_view kept_place) (option_copied result)
        ≡ spec.implementation_at (placed tree.now) number }
{
    match tree.declarations.get(number) {
        Some(Declaration::Implementation(x)) => Some(x),
        Some(Declaration::Type(_)) => None,
        None => None,
    }
}

/// A subcomponent of the implementation of a number.
pub fn subcomponent_at<'t>(
    tree: &'t PackageTree,
    number: usize,
    sub: usize,
) -> Option<&'t Subcomponent>
    ensures { option_map (subcomponent_view kept_place) (option_copied result)
        ≡ slice_get (spec.subcomponents_of (spec.implementation_at (placed tree.now) number)) sub }
{
    match implementation_at(tree, number) {
        Some(x) => x.subcomponents.get(sub),
        None => None,
    }
}

/// The type of a number, if there is one.
pub fn type_numbered<'t>(
    tree: &'t PackageTree,
    number: Option<usize>,
) -> Option<&'t TypeDeclaration>
    ensures { option_map (type_view kept_place) (option_copied result) ≡ spec.type_numbered (placed tree.now) number }
{
    match tree.declarations.get(number?) {
        Some(Declaration::Type(x)) => Some(x),
        Some(Declaration::Implementation(_)) => None,
        None => None,
    }
}

/// The number of an implementation's type.
pub fn type_number(
    alloc: Global,
    names: &Names<'_>,
    x: &Implementation,
) -> Result<Option<usize>, AllocError>
    ensures { IfOk result (λ number. number ≡ spec.type_number (placed names.now.tree.now)
        (implementation_view kept_place x.now)) }
{
    names.type_number(alloc, &x.name.component_type)
}
