//! The violations of the declarations in use.
ghost use Rattle.std.specs.Prelude.{◌≡◌, ◌++◌, true, OnOk, Some, slice_get, map, flat_map};
ghost use Rattle.aadl_tree.specs.proof.PlaceMaps.{kept_place};
ghost use Rattle.aadl_tree.specs.proof.PackageViews.{placed};
ghost use Rattle.aadl_tree.specs.Declarations.{implementation};
ghost use Rattle.aadl_tree.specs.proof.DeclarationViews.{declaration_view, implementation_view, subcomponent_view};
ghost use Rattle.aadl_tree.specs.proof.DeclarationViews.{type_view};
ghost use Rattle.aadl_names.specs.NameResolution.{implementation_at, is_thread};
ghost use Rattle.model_violations.specs.ThreadBehaviours.{IsSmall};
ghost use Rattle.model_violations.specs.IgnoredProperties.{is_root_type};
ghost use Rattle.model_violations.specs.ConnectionsAndCarriers.{carries};
ghost use Rattle.model_violations.specs.UsedDeclarations.{has};
ghost use Rattle.model_violations.specs.DeclarationFindings as spec;

use crate::carriers::Carriers;
use crate::connection_findings::add_connections_findings;
use crate::ignored_declaration_properties::is_number;
use crate::resolve_implementation;
use aadl_names::PropertyHolder;
use aadl_tree::{Category, Declaration, Implementation, Subcomponent, TypeDeclaration};
use aadl_uses::{PackageConnections, Uses};
use annex_resolve::Violation;
use component_checks::times::add_times_too_big;
use component_checks::type_findings::add_port_findings;
use indexmap::IndexSet;
use pals_base::{ItemList, NoMemory};
use std::alloc::Global;

/// A package with its declarations in use below a root: the numbers of implementations and of types, and the
/// carriers.
#[derive(Clone, Copy)]
pub struct UsedPackage<'t> {
    pub wires: &'t PackageConnections<'t>,
    pub root: usize,
    pub implementations: &'t IndexSet<usize>,
    pub types: &'t IndexSet<usize>,
    pub carriers: &'t Carriers,
}

fn is_root_type(uses: &Uses<'_>, root: usize, number: usize) -> bool
    ensures { result ≡ is_root_type (placed uses.now.names.tree.now) root number }
{
    is_number(number, uses.type_number(root))
}

// Appends the violations of the type with a number.
fn add_type_findings(
    alloc: Global,
    uses: &Uses<'_>,
    root: usize,
    number: usize,
    x: &TypeDeclaration,
    found: &mut ItemList<Violation>,
) -> Result<(), NoMemory>
    ensures { OnOk result (found.new ≡ found.old
        ++ spec.type_findings (is_root_type (placed uses.now.names.tree.now) root number)
        (type_view kept_place x.now)) }
{
    add_port_findings(alloc, x.features.as_slice(), found)?;
    let holder = PropertyHolder::Declaration(x.category, is_root_type(uses, root, number));
    add_times_too_big(alloc, holder, x.properties.as_slice(), found)
}

// Appends the times above one hour at subcomponents.
fn add_subs_findings(
    alloc: Global,
    subs: &[Subcomponent],
    found: &mut ItemList<Violation>,
) -> Result<(), NoMemory>
    ensures { OnOk result (found.new ≡ found.old
        ++ flat_map spec.sub_findings (map (subcomponent_view kept_place) subs.now)) }
{
    for sub in subs {
        let holder = PropertyHolder::Subcomponent(sub.category);
        add_times_too_big(alloc, holder, sub.properties.as_slice(), found)?;
    }
    Ok(())
}

// Appends the violations of the behaviour of the implementation with a number, if it is a thread's.
fn add_thread_findings(
    alloc: Global,
    uses: &Uses<'_>,
    number: usize,
    x: &Implementation,
    found: &mut ItemList<Violation>,
) -> Result<(), NoMemory>
    requires number { implementation_at (placed uses.now.names.tree.now) number
        ≡ Some (implementation_view kept_place x.now) }
    requires small { is_thread x.now.category ≡ true
        → IsSmall (placed uses.now.names.tree.now) (implementation_view kept_place x.now) }
    ensures { OnOk result (found.new ≡ found.old
        ++ spec.thread_findings (placed uses.now.names.tree.now) (implementation_view kept_place x.now)) }
{
    match x.category {
        Category::Thread => {
            let _behaviour = resolve_implementation(alloc, uses, number, found)?;
            Ok(())
        }
        Category::System | Category::Process => Ok(()),
    }
}

// Appends the violations of the implementation with a number.
fn add_implementation_findings(
    alloc: Global,
    in_use: &UsedPackage<'_>,
    number: usize,
    x: &Implementation,
    found: &mut ItemList<Violation>,
) -> Result<(), NoMemory>
    requires number { slice_get (placed in_use.now.wires.now.uses.names.tree.now).declarations number
        ≡ Some (implementation (implementation_view kept_place x.now)) }
    requires small { is_thread x.now.category ≡ true
        → IsSmall (placed in_use.now.wires.now.uses.names.tree.now) (implementation_view kept_place x.now) }
    ensures { OnOk result (found.new ≡ found.old
        ++ spec.implementation_findings (placed in_use.now.wires.now.uses.names.tree.now) in_use.now.root
        (carries in_use.now.carriers.now) number (implementation_view kept_place x.now)) }
{
    let wires = in_use.wires;
    let holder = PropertyHolder::Declaration(x.category, number == in_use.root);
    add_times_too_big(alloc, holder, x.properties.as_slice(), found)?;
    add_subs_findings(alloc, x.subcomponents.as_slice(), found)?;
    add_connections_findings(alloc, wires, in_use.carriers, number, x, found)?;
    add_thread_findings(alloc, &wires.uses, number, x, found)
}

// Appends the violations of the declaration with a number, if it is in use.
fn add_declaration_findings(
    alloc: Global,
    in_use: &UsedPackage<'_>,
    number: usize,
    declaration: &Declaration,
    found: &mut ItemList<Violation>,
) -> Result<(), NoMemory>
    requires number { slice_get (placed in_use.now.wires.now.uses.names.tree.now).declarations number
        ≡ Some (declaration_view kept_place declaration.now) }
    requires small { spec.AreSmall (placed in_use.now.wires.now.uses.names.tree.now)
        (has in_use.now.implementations.now.keys) }
    ensures { OnOk result (found.new ≡ found.old
        ++ spec.declaration_findings (placed in_use.now.wires.now.uses.names.tree.now) in_use.now.root
        (has in_use.now.implementations.now.keys) (has in_use.now.types.now.keys) (carries in_use.now.carriers.now)
        (number, declaration_view kept_place declaration.now)) }
{
    match declaration {
        Declaration::Type(x) => {
            if in_use.types.contains(&number) {
                add_type_findings(alloc, &in_use.wires.uses, in_use.root, number, x, found)
            } else {
                Ok(())
            }
        }
        Declaration::Implementation(x) => {
            if in_use.implementations.contains(&number) {
                add_implementation_findings(alloc, in_use, number, x, found)
            } else {
                Ok(())
            }
        }
    }
}

/// Appends the violations of the declarations in use of a package. Errors: out of memory.
pub fn add_package_findings(
    alloc: Global,
    in_use: &UsedPackage<'_>,
    found: &mut ItemList<Violation>,
) -> Result<(), NoMemory>
    requires { spec.AreSmall (placed in_use.now.wires.now.uses.names.tree.now)
        (has in_use.now.implementations.now.keys) }
    ensures { OnOk result (found.new ≡ found.old
        ++ spec.declarations_findings (placed in_use.now.wires.now.uses.names.tree.now) in_use.now.root
        (has in_use.now.implementations.now.keys) (has in_use.now.types.now.keys) (carries in_use.now.carriers.now)) }
{
    let wires = in_use.wires;
    for (number, declaration) in wires.uses.names.tree.declarations.iter().enumerate() {
        add_declaration_findings(alloc, in_use, number, declaration, found)?;
    }
    Ok(())
}
