//! Looks up the ports that the connections of each declaration join, by the names at their ends.
ghost use Rattle.std.specs.Prelude.{◌≡◌, ℕ, Some, IfOk, map, slice_get};
ghost use Rattle.aadl_tree.specs.proof.PackageViews.{placed};
ghost use Rattle.aadl_tree.specs.proof.DeclarationViews.{declaration_view, connection_view};
ghost use Rattle.aadl_tree.specs.proof.PlaceMaps.{kept_place};
ghost use Rattle.aadl_tree.specs.Declarations.{Implementation};
ghost use Rattle.aadl_names.specs.NameResolution.{implementation_at};
ghost use Rattle.aadl_uses.specs.PortsOfConnections as spec;
ghost use Rattle.aadl_uses.specs.proof.IncomingConnections.{wires_in};

use crate::connections_by_target::{ConnectionPorts, Connections};
use crate::ports_of_ends::site_of;
use crate::resolved_package::Uses;
use aadl_tree::{Connection, Declaration};
use pals_base::ItemList;
use std::alloc::{AllocError, Global};

/// Returns the connections of each declaration. Errors: out of memory.
pub fn wiring_of(
    alloc: Global,
    uses: &Uses<'_>,
    declarations: &[Declaration],
) -> Result<ItemList<Connections>, AllocError>
    requires all { map (declaration_view kept_place) declarations.now ≡ (placed uses.now.names.tree.now).declarations }
    ensures { IfOk result (λ wiring. wiring ≡ map (wires_in (placed uses.now.names.tree.now))
        (map (declaration_view kept_place) declarations.now)) }
{
    let mut wiring = ItemList::new(alloc);
    for (number, declaration) in declarations.iter().enumerate() {
        let wires = wires_of(alloc, uses, number, declaration)?;
        wiring.push(Connections::of(alloc, wires)?)?;
    }
    Ok(wiring)
}

// The connections of a declaration, as ports.
fn wires_of(
    alloc: Global,
    uses: &Uses<'_>,
    number: usize,
    declaration: &Declaration,
) -> Result<ItemList<ConnectionPorts>, AllocError>
    requires stands { slice_get (placed uses.now.names.tree.now).declarations number
        ≡ Some (declaration_view kept_place declaration.now) }
    ensures { IfOk result (λ wires. wires ≡ wires_in (placed uses.now.names.tree.now)
        (declaration_view kept_place declaration.now)) }
{
    match declaration {
        Declaration::Type(_) => Ok(ItemList::new(alloc)),
        Declaration::Implementation(x) => {
            wires_of_each(alloc, uses, number, x.connections.as_slice())
        }
    }
}

// The ports that connections of an implementation join.
fn wires_of_each(
    alloc: Global,
    uses: &Uses<'_>,
    number: usize,
    connections: &[Connection],
) -> Result<ItemList<ConnectionPorts>, AllocError>
    ensures { IfOk result (λ wires. (x : Implementation ℕ)
        → implementation_at (placed uses.now.names.tree.now) number ≡ Some x
        → wires ≡ map (spec.ports_of_connection (placed uses.now.names.tree.now) x)
        (map (connection_view kept_place) connections.now)) }
{
    let mut wires = ItemList::new(alloc);
    for connection in connections {
        wires.push(ports_of_connection(alloc, uses, number, connection)?)?;
    }
    Ok(wires)
}

// The ports that a connection joins.
fn ports_of_connection(
    alloc: Global,
    uses: &Uses<'_>,
    number: usize,
    connection: &Connection,
) -> Result<ConnectionPorts, AllocError>
    ensures { IfOk result (λ wire. (x : Implementation ℕ)
        → implementation_at (placed uses.now.names.tree.now) number ≡ Some x
        → wire ≡ spec.ports_of_connection (placed uses.now.names.tree.now) x
        (connection_view kept_place connection.now)) }
{
    let source = site_of(alloc, uses, number, &connection.source)?;
    let target = site_of(alloc, uses, number, &connection.target)?;
    Ok(ConnectionPorts { source, target })
}
