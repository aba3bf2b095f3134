//! The properties of all components of a package; each list is read once.
ghost use Rattle.std.specs.Prelude.{◌≡◌, IfOk, map};
ghost use Rattle.aadl_tree.specs.proof.PlaceMaps.{kept_place};
ghost use Rattle.aadl_tree.specs.proof.PackageViews.{placed};
ghost use Rattle.aadl_tree.specs.proof.DeclarationViews.{declaration_view};
ghost use Rattle.aadl_names.specs.NameResolution.{implementation_at, subcomponents_of};
ghost use Rattle.component_checks.specs.PropertyLookup.{lists_at, root_lists};
ghost use Rattle.component_checks.specs.proof.ComponentProperties as spec;
ghost use Rattle.component_checks.specs.proof.ComponentProperties.{timed_by};

use crate::component_properties::ComponentProperties;
use aadl_tree::{Declaration, PackageTree};
use aadl_uses::{SubAt, Uses};
use pals_base::{ItemList, NoMemory};
use std::alloc::Global;

/// Returns the entry at a number, or no properties.
pub fn numbered(timed: &[ComponentProperties], number: Option<usize>) -> ComponentProperties
    ensures { result ≡ spec.numbered timed.now number }
{
    let Some(number) = number else {
        return ComponentProperties::none();
    };
    match timed.get(number) {
        Some(timed) => *timed,
        None => ComponentProperties::none(),
    }
}

/// Returns the entry at a number in the list at another number, or no properties.
pub fn numbered_in(
    timed: &[ItemList<ComponentProperties>],
    list: usize,
    number: usize,
) -> ComponentProperties
    ensures { result ≡ spec.numbered_in timed.now list number }
{
    match timed.get(list) {
        Some(timed) => numbered(timed.as_slice(), Some(number)),
        None => ComponentProperties::none(),
    }
}

fn of_type(declaration: &Declaration) -> ComponentProperties
    ensures { result ≡ spec.type_timed (declaration_view kept_place declaration.now) }
{
    match declaration {
        Declaration::Type(x) => ComponentProperties::of(x.properties.as_slice()),
        Declaration::Implementation(_) => ComponentProperties::none(),
    }
}

/// Returns the properties of the types of a package, by their numbers. Errors: out of memory.
pub fn all_of_types(
    alloc: Global,
    tree: &PackageTree,
) -> Result<ItemList<ComponentProperties>, NoMemory>
    ensures { IfOk result (λ types. types ≡ map spec.type_timed (placed tree.now).declarations) }
{
    let mut types = ItemList::new(alloc);
    for declaration in &tree.declarations {
        types.push(of_type(declaration))?;
    }
    Ok(types)
}

// The properties of the implementation with a number, and of its type.
fn own_of(uses: &Uses<'_>, types: &[ComponentProperties], number: usize) -> ComponentProperties
    requires { types.now ≡ map spec.type_timed (placed uses.now.names.tree.now).declarations }
    ensures { result ≡ timed_by (root_lists (placed uses.now.names.tree.now) number) }
{
    let Some(x) = uses.implementation(number) else {
        return ComponentProperties::none();
    };
    let own = ComponentProperties::of(x.properties.as_slice());
    own.or(numbered(types, uses.type_number(number)))
}

/// Returns the properties of the implementations of a package and of their types, by number. Errors: out of
/// memory.
pub fn all_own(
    alloc: Global,
    uses: &Uses<'_>,
    types: &[ComponentProperties],
) -> Result<ItemList<ComponentProperties>, NoMemory>
    requires { types.now ≡ map spec.type_timed (placed uses.now.names.tree.now).declarations }
    ensures { IfOk result (λ own. own ≡ map (spec.own_timed (placed uses.now.names.tree.now))
        (placed uses.now.names.tree.now).declarations) }
{
    let mut own = ItemList::new(alloc);
    for number in 0..uses.len() {
        own.push(own_of(uses, types, number))?;
    }
    Ok(own)
}

// The properties of a subcomponent, of its implementation, and of the implementation's type.
fn sub_of(uses: &Uses<'_>, own: &[ComponentProperties], at: SubAt) -> ComponentProperties
    requires { own.now ≡ map (spec.own_timed (placed uses.now.names.tree.now))
        (placed uses.now.names.tree.now).declarations }
    ensures { result ≡ timed_by (lists_at (placed uses.now.names.tree.now) at) }
{
    let Some(sub) = uses.subcomponent(at.declaration, at.sub) else {
        return ComponentProperties::none();
    };
    let said = ComponentProperties::of(sub.properties.as_slice());
    said.or(numbered(own, uses.below(at.declaration, at.sub)))
}

// The properties of the subcomponents of the declaration with a number, in order.
fn subs_of(
    alloc: Global,
    uses: &Uses<'_>,
    own: &[ComponentProperties],
    declaration: usize,
) -> Result<ItemList<ComponentProperties>, NoMemory>
    requires { own.now ≡ map (spec.own_timed (placed uses.now.names.tree.now))
        (placed uses.now.names.tree.now).declarations }
    ensures { IfOk result (λ timed. timed ≡ map (spec.sub_timed (placed uses.now.names.tree.now))
        (subcomponents_of (implementation_at (placed uses.now.names.tree.now) declaration))) }
{
    let mut timed = ItemList::new(alloc);
    for sub in 0..uses.targets(declaration).len() {
        timed.push(sub_of(uses, own, SubAt { declaration, sub }))?;
    }
    Ok(timed)
}

/// Returns the properties of the subcomponents of a package, by the numbers of their declarations and their own
/// numbers there. Errors: out of memory.
pub fn all_of_subs(
    alloc: Global,
    uses: &Uses<'_>,
    own: &[ComponentProperties],
) -> Result<ItemList<ItemList<ComponentProperties>>, NoMemory>
    requires { own.now ≡ map (spec.own_timed (placed uses.now.names.tree.now))
        (placed uses.now.names.tree.now).declarations }
    ensures { IfOk result (λ subs. subs ≡ map (spec.subs_timed (placed uses.now.names.tree.now))
        (placed uses.now.names.tree.now).declarations) }
{
    let mut subs = ItemList::new(alloc);
    for declaration in 0..uses.len() {
        subs.push(subs_of(alloc, uses, own, declaration)?)?;
    }
    Ok(subs)
}
