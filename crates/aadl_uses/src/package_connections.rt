//! A package and its connections.
ghost use Rattle.std.specs.Prelude.{◌≡◌, ◌↔◌, IfOk, IsTrue, map, option_map, option_copied, slice_get};
ghost use Rattle.std.proofs.Props.{props};
ghost use Rattle.aadl_tree.specs.proof.PackageViews.{placed};
ghost use Rattle.aadl_tree.specs.proof.DeclarationViews.{connection_view};
ghost use Rattle.aadl_tree.specs.proof.PlaceMaps.{kept_place};
ghost use Rattle.aadl_names.specs.NameResolution.{implementation_at, connections_of, ports_at, direction_in};
ghost use Rattle.aadl_names.specs.PackageNameFaults as faults;
ghost use Rattle.aadl_uses.specs.SecondConnections.{IsDuplicate};
ghost use Rattle.aadl_uses.specs.proof.IncomingConnections.{wires_in};
ghost use Rattle.aadl_uses.specs.PortsOfConnections.{connection_ports_at};
ghost use Rattle.aadl_uses.specs.proof.IncomingConnections as spec;

use crate::connections_by_target::{ConnectionPorts, Connections};
use crate::ports_of_connections::wiring_of;
use crate::resolved_package::Uses;
use aadl_names::NumberedPort;
use aadl_tree::{Connection, Direction};
use pals_base::ItemList;
use std::alloc::{AllocError, Global};

/// A package with the ports of its implementations, and its connections.
pub struct PackageConnections<'t> {
    /// The package with its names looked up.
    pub uses: Uses<'t>,
    connections: ItemList<Connections>,
    ghost of_connections: { connections ≡ map (wires_in (placed uses.names.tree.now))
        (placed uses.names.tree.now).declarations } by { Prim.hlevel props },
}

impl Drop for PackageConnections<'_> {
    fn drop(self) {
        let PackageConnections {
            uses: _,
            connections: _,
        } = self;
    }
}

impl<'t> PackageConnections<'t> {
    /// Looks up the connections of a package. Errors: out of memory.
    pub fn of(alloc: Global, uses: Uses<'t>) -> Result<PackageConnections<'t>, AllocError>
        ensures { IfOk result (λ wires. wires.uses.names.tree.now ≡ uses.entry.names.tree.now) }
    {
        let declarations = uses.names.tree.declarations.as_slice();
        let connections = wiring_of(alloc, &uses, declarations)?;
        Ok(PackageConnections { uses, connections })
    }

    /// Returns the connections of a declaration, in order.
    pub fn wires(&self, number: usize) -> &[ConnectionPorts]
        ensures { result.now ≡ connection_ports_at (placed self.now.uses.names.tree.now) number }
    {
        match self.connections.get(number) {
            Some(connections) => connections.as_slice(),
            None => &[],
        }
    }

    /// Returns a connection of a declaration, as it is declared.
    pub fn connection(&self, number: usize, wire: usize) -> Option<&'t Connection>
        ensures { option_map (connection_view kept_place) (option_copied result)
            ≡ slice_get (connections_of (implementation_at (placed self.now.uses.names.tree.now) number)) wire }
    {
        match self.uses.implementation(number) {
            Some(x) => x.connections.get(wire),
            None => None,
        }
    }

    /// Returns the first connection of a declaration into a port: its number and its source.
    pub fn connection_into(
        &self,
        number: usize,
        target: NumberedPort,
    ) -> Option<(usize, NumberedPort)>
        ensures { result ≡ spec.connection_into (placed self.now.uses.names.tree.now) number target }
    {
        let wire = self.first_into(number, target)?;
        match self.wires(number).get(wire) {
            Some(found) => with_source(wire, *found),
            None => None,
        }
    }

    /// Returns whether a connection of a declaration has the same target as an earlier one.
    pub fn is_second(&self, number: usize, wire: usize) -> bool
        ensures { IsTrue result ↔ IsDuplicate (connection_ports_at (placed self.now.uses.names.tree.now) number) wire }
    {
        match self.connections.get(number) {
            Some(connections) => connections.is_second(wire),
            None => false,
        }
    }

    // The number of the first connection of a declaration into a port.
    fn first_into(&self, number: usize, target: NumberedPort) -> Option<usize>
        ensures { result ≡ spec.first_into_at (placed self.now.uses.names.tree.now) number target }
    {
        match self.connections.get(number) {
            Some(connections) => connections.first_into(target),
            None => None,
        }
    }

    /// Returns whether a port of an implementation is an in port.
    pub fn is_in(&self, number: usize, port: usize) -> bool
        ensures { result ≡ faults.goes_in (direction_in (ports_at (placed self.now.uses.names.tree.now)
            (implementation_at (placed self.now.uses.names.tree.now) number)) port) }
    {
        match self.uses.ports(number).get(port) {
            Some(port) => goes_in(port.direction),
            None => false,
        }
    }
}

/// Returns whether ports of a direction are in ports.
pub fn goes_in(direction: Direction) -> bool
    ensures { result ≡ faults.goes_in (Some direction) }
{
    match direction {
        Direction::In => true,
        Direction::Out => false,
    }
}

fn with_source(number: usize, wire: ConnectionPorts) -> Option<(usize, NumberedPort)>
    ensures { result ≡ spec.with_source number wire }
{
    match wire.source {
        Some(source) => Some((number, source)),
        None => None,
    }
}
