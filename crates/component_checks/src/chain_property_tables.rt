//! The properties of all connections of a package; each list is read once.
ghost use Rattle.std.specs.Prelude.{◌≡◌, IfOk, map};
ghost use Rattle.aadl_tree.specs.proof.PlaceMaps.{kept_place};
ghost use Rattle.aadl_tree.specs.proof.PackageViews.{placed};
ghost use Rattle.aadl_tree.specs.proof.DeclarationViews.{connection_view, declaration_view};
ghost use Rattle.component_checks.specs.proof.ChainProperties as spec;

use crate::chain_properties::ChainProperties;
use aadl_tree::{Connection, Declaration, PackageTree};
use pals_base::{ItemList, NoMemory};
use std::alloc::Global;

/// Returns the properties of a connection, by the numbers of its declaration and its own number there.
pub fn carried_at(
    carried: &[ItemList<ChainProperties>],
    list: usize,
    number: usize,
) -> Option<ChainProperties>
    ensures { result ≡ spec.carried_at carried.now list number }
{
    match carried.get(list) {
        Some(carried) => carried.as_slice().get(number).copied(),
        None => None,
    }
}

// The properties of these connections, in order.
fn connections_of(
    alloc: Global,
    connections: &[Connection],
) -> Result<ItemList<ChainProperties>, NoMemory>
    ensures { IfOk result (λ carried. carried
        ≡ map (λ c. spec.carried_by c.properties) (map (connection_view kept_place) connections.now)) }
{
    let mut carried = ItemList::new(alloc);
    for connection in connections {
        carried.push(ChainProperties::of(connection.properties.as_slice()))?;
    }
    Ok(carried)
}

// The properties of the connections of a declaration.
fn connections_in(
    alloc: Global,
    declaration: &Declaration,
) -> Result<ItemList<ChainProperties>, NoMemory>
    ensures { IfOk result (λ carried. carried
        ≡ spec.connections_carried (declaration_view kept_place declaration.now)) }
{
    match declaration {
        Declaration::Type(_) => Ok(ItemList::new(alloc)),
        Declaration::Implementation(x) => connections_of(alloc, x.connections.as_slice()),
    }
}

/// Returns the properties of all connections of a package, by the numbers of their declarations and their own
/// numbers there. Errors: out of memory.
pub fn all_of_connections(
    alloc: Global,
    tree: &PackageTree,
) -> Result<ItemList<ItemList<ChainProperties>>, NoMemory>
    ensures { IfOk result (λ carried. carried ≡ map spec.connections_carried (placed tree.now).declarations) }
{
    let mut carried = ItemList::new(alloc);
    for declaration in &tree.declarations {
        carried.push(connections_in(alloc, declaration)?)?;
    }
    Ok(carried)
}
