//! Tables of the port names of each type, and their look-up.
ghost use Rattle.std.specs.Prelude.{◌≡◌, ℕ, List, OnOk, IfOk, map, if◌then◌else◌, None, Some};
ghost use Rattle.aadl_tree.specs.Names.{same_name};
ghost use Rattle.std.specs.Option.{option_or};
ghost use Rattle.aadl_tree.specs.proof.PackageViews.{placed};
ghost use Rattle.aadl_tree.specs.proof.DeclarationViews.{feature_view, declaration_view};
ghost use Rattle.aadl_tree.specs.proof.PlaceMaps.{kept_place};
ghost use Rattle.aadl_names.specs.proof.FirstFaultSoFar.{found};
ghost use Rattle.aadl_names.specs.proof.NameTables.{value_of};
ghost use Rattle.aadl_names.specs.DuplicateNames.{twice};
ghost use Rattle.aadl_names.specs.DuplicatesByNamespace.{port_entries};
ghost use Rattle.aadl_names.specs.NameResolution.{features_of, type_in, type_numbered};
ghost use Rattle.aadl_names.specs.PackageNameFaults.{role_in, port_roles};
ghost use Rattle.name_faults.specs.proof.TypePortNames.{AreNamesOf, AreAllNamesOf, HasRolesOf, names_at};

use crate::namespace_entries::port_entries;
use aadl_names::declarations_by_number::type_numbered;
use aadl_names::duplicate_names::check_twice;
use aadl_names::earliest_by_name::earliest_of;
use aadl_names::{FaultFinder, NameTable, NumberedPlace, PackageFault, Role, SpelledName};
use aadl_tree::{Declaration, Direction, Feature, PackageTree};
use pals_base::ItemList;
use std::alloc::{AllocError, Global};

/// The port names of one type, in the forms that the checks of its implementations look up.
pub struct PortNames {
    /// The role of each name.
    pub roles: NameTable<Role>,
    /// The earliest port with each name.
    pub earliest: NameTable<NumberedPlace>,
    /// The first port with the same name as an earlier one.
    pub again: Option<PackageFault>,
}

impl Drop for PortNames {
    fn drop(self) {
        let PortNames {
            roles: _,
            earliest: _,
            again: _,
        } = self;
    }
}

/// The port names of all types.
pub struct AllPortNames {
    /// The port names of each declaration, by its number.
    pub of_declarations: ItemList<PortNames>,
    /// The table without ports.
    pub none: PortNames,
}

impl Drop for AllPortNames {
    fn drop(self) {
        let AllPortNames {
            of_declarations: _,
            none: _,
        } = self;
    }
}

// The role of a port of the direction.
fn role_in(direction: Direction) -> Role
    ensures { result ≡ role_in direction }
{
    match direction {
        Direction::In => Role::Receives,
        Direction::Out => Role::Gives,
    }
}

// Adds a port to the roles, unless its name is there.
fn add_role(alloc: Global, roles: &mut NameTable<Role>, port: &Feature) -> Result<(), AllocError>
    ensures { OnOk result ((name : List ℕ) → value_of roles.new name
        ≡ option_or (value_of roles.old name)
        (if same_name name (feature_view kept_place port.now).name.spelling
        then Some (role_in (feature_view kept_place port.now).direction) else None)) }
{
    roles.add(alloc, port.name.spelling.as_str(), role_in(port.direction))
}

// The roles of the names of ports.
fn port_roles(alloc: Global, ports: &[Feature]) -> Result<NameTable<Role>, AllocError>
    ensures { IfOk result (λ table. HasRolesOf (map (feature_view kept_place) ports.now) table) }
{
    let mut roles = NameTable::new(alloc);
    for port in ports {
        add_role(alloc, &mut roles, port)?;
    }
    Ok(roles)
}

// The first declaration with the same name as an earlier one.
fn first_again(alloc: Global, entries: &[SpelledName]) -> Result<Option<PackageFault>, AllocError>
    ensures { IfOk result (λ first. first ≡ found None (twice entries.now)) }
{
    let mut finder = FaultFinder::new(alloc);
    check_twice(&mut finder, entries)?;
    Ok(finder.finish())
}

// The tables of the names of ports.
fn port_names(alloc: Global, ports: &[Feature]) -> Result<PortNames, AllocError>
    ensures { IfOk result (AreNamesOf (map (feature_view kept_place) ports.now)) }
{
    let entries = port_entries(alloc, ports)?;
    Ok(PortNames {
        roles: port_roles(alloc, ports)?,
        earliest: earliest_of(alloc, entries.as_slice())?,
        again: first_again(alloc, entries.as_slice())?,
    })
}

// The ports of a declaration, if it is a type.
fn ports_in(declaration: &Declaration) -> &[Feature]
    ensures { map (feature_view kept_place) result.now
        ≡ features_of (type_in (Some (declaration_view kept_place declaration.now))) }
{
    match declaration {
        Declaration::Type(x) => x.features.as_slice(),
        Declaration::Implementation(_) => &[],
    }
}

/// Returns the port names of all types. Errors: out of memory.
pub fn all_port_names(alloc: Global, tree: &PackageTree) -> Result<AllPortNames, AllocError>
    ensures { IfOk result (AreAllNamesOf (placed tree.now)) }
{
    let mut of_declarations = ItemList::new(alloc);
    for declaration in &tree.declarations {
        of_declarations.push(port_names(alloc, ports_in(declaration))?)?;
    }
    Ok(AllPortNames {
        of_declarations,
        none: port_names(alloc, &[])?,
    })
}

/// Returns the port names of the type with a number.
pub fn names_at(all: &AllPortNames, of_type: Option<usize>) -> &PortNames
    ensures { result.now ≡ names_at all.now of_type }
{
    let Some(number) = of_type else {
        return &all.none;
    };
    match all.of_declarations.as_slice().get(number) {
        Some(names) => names,
        None => &all.none,
    }
}

/// Returns the ports of the type with a number.
pub fn ports_at(tree: &PackageTree, of_type: Option<usize>) -> &[Feature]
    ensures { map (feature_view kept_place) result.now ≡ features_of (type_numbered (placed tree.now) of_type) }
{
    match type_numbered(tree, of_type) {
        Some(x) => x.features.as_slice(),
        None => &[],
    }
}
