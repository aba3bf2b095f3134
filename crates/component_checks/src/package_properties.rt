//! The properties of a package.
ghost use Rattle.std.specs.Prelude.{◌≡◌, IfOk, map, option_map, slice_get};
ghost use Rattle.std.proofs.Props.{props};
ghost use Rattle.aadl_tree.specs.proof.PackageViews.{placed};
ghost use Rattle.aadl_names.specs.NameResolution.{implementation_at, connections_of};
ghost use Rattle.component_checks.specs.proof.ChainProperties.{carried_by, connections_carried};
ghost use Rattle.component_checks.specs.PropertyLookup.{lists_at, root_lists, lists_along, sub_lists, innermost};
ghost use Rattle.component_checks.specs.proof.ComponentProperties as spec;
ghost use Rattle.component_checks.specs.proof.ComponentProperties.{timed_by};

use crate::chain_properties::ChainProperties;
use crate::chain_property_tables::{all_of_connections, carried_at};
use crate::component_properties::ComponentProperties;
use crate::component_property_tables::{all_of_subs, all_of_types, all_own, numbered, numbered_in};
use aadl_uses::{SubAt, Uses};
use pals_base::{ItemList, NoMemory};
use std::alloc::Global;

// The properties in the lists of a package, by the numbers of declarations, subcomponents and connections.
#[derive(Drop)]
struct PackageProperties {
    // of each implementation and its type
    own: ItemList<ComponentProperties>,
    // of each subcomponent, its implementation, and the implementation's type
    subs: ItemList<ItemList<ComponentProperties>>,
    // of each connection
    connections: ItemList<ItemList<ChainProperties>>,
}

/// A package with its look-ups, and with the properties of its components and connections.
pub struct Properties<'t> {
    /// The package with its look-ups.
    pub uses: &'t Uses<'t>,
    said: PackageProperties,
    ghost of_own: { said.own ≡ map (spec.own_timed (placed uses.now.names.tree.now))
        (placed uses.now.names.tree.now).declarations } by { Prim.hlevel props },
    ghost of_subs: { said.subs
        ≡ map (spec.subs_timed (placed uses.now.names.tree.now)) (placed uses.now.names.tree.now).declarations } by { Prim.hlevel props },
    ghost of_connections: { said.connections ≡ map connections_carried (placed uses.now.names.tree.now).declarations } by { Prim.hlevel props },
}

impl Drop for Properties<'_> {
    fn drop(self) {
        let Properties { uses: _, said: _ } = self;
    }
}

// The properties of implementations and their types.
fn own_in(alloc: Global, uses: &Uses<'_>) -> Result<ItemList<ComponentProperties>, NoMemory>
    ensures { IfOk result (λ own. own ≡ map (spec.own_timed (placed uses.now.names.tree.now))
        (placed uses.now.names.tree.now).declarations) }
{
    let types = all_of_types(alloc, uses.names.tree)?;
    all_own(alloc, uses, types.as_slice())
}

// The properties in the lists of a package.
fn said_in(alloc: Global, uses: &Uses<'_>) -> Result<PackageProperties, NoMemory>
    ensures own { IfOk result (λ said. said.own
        ≡ map (spec.own_timed (placed uses.now.names.tree.now)) (placed uses.now.names.tree.now).declarations) }
    ensures subs { IfOk result (λ said. said.subs
        ≡ map (spec.subs_timed (placed uses.now.names.tree.now)) (placed uses.now.names.tree.now).declarations) }
    ensures connections { IfOk result (λ said. said.connections
        ≡ map connections_carried (placed uses.now.names.tree.now).declarations) }
{
    let connections = all_of_connections(alloc, uses.names.tree)?;
    let own = own_in(alloc, uses)?;
    let subs = all_of_subs(alloc, uses, own.as_slice())?;
    Ok(PackageProperties {
        own,
        subs,
        connections,
    })
}

impl<'t> Properties<'t> {
    /// Reads the properties of a package. Errors: out of memory.
    pub fn of(alloc: Global, uses: &'t Uses<'t>) -> Result<Properties<'t>, NoMemory>
        ensures { IfOk result (λ properties. properties.uses.now.names.tree.now ≡ uses.now.names.tree.now) }
    {
        let said = said_in(alloc, uses)?;
        Ok(Properties { uses, said })
    }

    /// Returns the properties of the root.
    pub fn of_root(&self, root: usize) -> ComponentProperties
        ensures { result ≡ timed_by (root_lists (placed self.now.uses.now.names.tree.now) root) }
    {
        numbered(self.said.own.as_slice(), Some(root))
    }

    /// Returns the properties of a subcomponent.
    pub fn of_sub(&self, sub: SubAt) -> ComponentProperties
        ensures { result ≡ timed_by (lists_at (placed self.now.uses.now.names.tree.now) sub) }
    {
        numbered_in(self.said.subs.as_slice(), sub.declaration, sub.sub)
    }

    /// Returns the properties of a component below the root: for each property, the value that is given nearest
    /// to the component on its path.
    pub fn along(&self, root: usize, subs: &[SubAt]) -> ComponentProperties
        ensures { result ≡ timed_by (lists_along (placed self.now.uses.now.names.tree.now) root subs.now) }
    {
        let mut nearest = self.of_root(root);
        for sub in subs {
            nearest = self.of_sub(*sub).or(nearest);
        }
        nearest
    }

    /// Returns the properties that a component itself has: from its subcomponent, its implementation, and its
    /// type, but not from components around it.
    pub fn of_component(&self, subs: &[SubAt]) -> ComponentProperties
        ensures { result ≡ timed_by (sub_lists (placed self.now.uses.now.names.tree.now)
            (innermost (placed self.now.uses.now.names.tree.now) subs.now)) }
    {
        match subs.last() {
            Some(sub) => self.of_sub(*sub),
            None => ComponentProperties::none(),
        }
    }

    /// Returns the properties of a connection that apply to its connection chains.
    pub fn of_connection(&self, declaration: usize, connection: usize) -> Option<ChainProperties>
        ensures { result ≡ option_map (λ c. carried_by c.properties)
            (slice_get (connections_of (implementation_at (placed self.now.uses.now.names.tree.now) declaration))
            connection) }
    {
        carried_at(self.said.connections.as_slice(), declaration, connection)
    }
}
