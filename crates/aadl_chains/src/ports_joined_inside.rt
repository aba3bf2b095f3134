//! The ports that connections join to threads below.
ghost use Rattle.std.specs.Prelude.{◌≡◌, ◌↔◌, false, IfOk, OnOk, IsTrue};
ghost use Rattle.aadl_tree.specs.proof.PackageViews.{placed};
ghost use Rattle.aadl_uses.specs.proof.PackageContainment.{containment};
ghost use Rattle.aadl_uses.specs.proof.ContainmentOrders.{IsOrder};
ghost use Rattle.aadl_chains.specs.proof.PortsJoinedInside as spec;
ghost use Rattle.aadl_chains.specs.proof.PortsJoinedInside.{ReachesIn, IsInside, IsJoined, AreJoined};

use crate::port_set::{PortAt, Ports};
use aadl_names::NumberedPort;
use aadl_tree::Direction;
use aadl_uses::{ConnectionPorts, PackageConnections};
use indexmap::IndexSet;
use std::alloc::{AllocError, Global};

/// The ports of implementations that connections join to threads below: in ports that lead to an in port of
/// some thread, or out ports that an out port of some thread leads to.
#[derive(Drop)]
pub struct JoinedInside {
    pub direction: Direction,
    pub ports: Ports,
}

impl JoinedInside {
    /// Computes the ports of a package that are joined to threads below. Precondition: in `order`, each
    /// declaration follows the declarations that it contains. Errors: out of memory.
    pub fn of(
        alloc: Global,
        wires: &PackageConnections<'_>,
        order: &IndexSet<usize>,
        direction: Direction,
    ) -> Result<JoinedInside, AllocError>
        requires { IsOrder (containment (placed wires.now.uses.names.tree.now)) order.now.keys }
        ensures { IfOk result (λ inside. (inside.direction ≡ direction)
            × IsInside (placed wires.now.uses.names.tree.now) direction inside.ports) }
    {
        let ports = ports_of(alloc, wires, order, direction)?;
        Ok(JoinedInside { direction, ports })
    }

    /// Returns whether connections join a port of a subcomponent to a thread below.
    pub fn reaches(
        &self,
        wires: &PackageConnections<'_>,
        declaration: usize,
        sub: usize,
        port: usize,
    ) -> bool
        requires { IsInside (placed wires.now.uses.names.tree.now) self.now.direction self.now.ports }
        ensures { IsTrue result ↔ ReachesIn (placed wires.now.uses.names.tree.now) self.now.direction declaration sub
            port }
    {
        reaches_in(
            &self.ports,
            wires,
            self.direction,
            wires.uses.below(declaration, sub),
            port,
        )
    }
}

// All ports that are joined to threads.
fn ports_of(
    alloc: Global,
    wires: &PackageConnections<'_>,
    order: &IndexSet<usize>,
    direction: Direction,
) -> Result<Ports, AllocError>
    requires { IsOrder (containment (placed wires.now.uses.names.tree.now)) order.now.keys }
    ensures { IfOk result (λ ports. IsInside (placed wires.now.uses.names.tree.now) direction ports) }
{
    let mut ports = Ports::new(alloc);
    for at in 0..order.len() {
        if let Some(number) = order.get_index(at) {
            let number = *number;
            join_all(&mut ports, wires, direction, number)?;
        }
    }
    Ok(ports)
}

// Adds the ports that the connections of a declaration join.
fn join_all(
    ports: &mut Ports,
    wires: &PackageConnections<'_>,
    direction: Direction,
    number: usize,
) -> Result<(), AllocError>
    ensures { OnOk result (AreJoined (placed wires.now.uses.names.tree.now) direction number ports.old ports.new) }
{
    if wires.uses.is_thread(number) {
        Ok(())
    } else {
        join_each(ports, wires, direction, number)
    }
}

fn join_each(
    ports: &mut Ports,
    wires: &PackageConnections<'_>,
    direction: Direction,
    number: usize,
) -> Result<(), AllocError>
    requires { spec.is_thread_at (placed wires.now.uses.names.tree.now) number ≡ false }
    ensures { OnOk result (AreJoined (placed wires.now.uses.names.tree.now) direction number ports.old ports.new) }
{
    for wire in wires.wires(number) {
        join(ports, wires, direction, number, *wire)?;
    }
    Ok(())
}

// Adds the port that a connection joins.
fn join(
    ports: &mut Ports,
    wires: &PackageConnections<'_>,
    direction: Direction,
    number: usize,
    wire: ConnectionPorts,
) -> Result<(), AllocError>
    ensures { OnOk result (IsJoined (placed wires.now.uses.names.tree.now) direction number wire ports.old ports.new) }
{
    match joined(ports, wires, direction, number, wire) {
        Some(port) => ports.add(PortAt {
            declaration: number,
            port,
        }),
        None => Ok(()),
    }
}

// The own port that a connection joins to a port that reaches a thread.
fn joined(
    ports: &Ports,
    wires: &PackageConnections<'_>,
    direction: Direction,
    number: usize,
    wire: ConnectionPorts,
) -> Option<usize>
    ensures { result ≡ spec.joined_by ports.now (placed wires.now.uses.names.tree.now) direction number
        (spec.outer_end direction wire)
        (spec.inner_end direction wire) }
{
    match outer_end(direction, wire) {
        Some(NumberedPort::Own(port)) => {
            joined_inner(
                ports,
                wires,
                direction,
                number,
                port,
                inner_end(direction, wire),
            )
        }
        Some(NumberedPort::Inner(_, _)) => None,
        None => None,
    }
}

fn joined_inner(
    ports: &Ports,
    wires: &PackageConnections<'_>,
    direction: Direction,
    number: usize,
    port: usize,
    inner: Option<NumberedPort>,
) -> Option<usize>
    ensures { result ≡ spec.joined_inner ports.now (placed wires.now.uses.names.tree.now) direction number port inner }
{
    match inner {
        Some(NumberedPort::Inner(sub, other)) => {
            if reaches_in(
                ports,
                wires,
                direction,
                wires.uses.below(number, sub),
                other,
            ) {
                Some(port)
            } else {
                None
            }
        }
        Some(NumberedPort::Own(_)) => None,
        None => None,
    }
}

/// Returns whether a port of a declaration reaches a thread, according to a set.
pub fn reaches_in(
    ports: &Ports,
    wires: &PackageConnections<'_>,
    direction: Direction,
    declaration: Option<usize>,
    port: usize,
) -> bool
    ensures { result ≡ spec.reaches_in ports.now (placed wires.now.uses.names.tree.now) direction declaration port }
{
    match declaration {
        Some(declaration) => reaches_by(ports, wires, direction, declaration, port),
        None => false,
    }
}

fn reaches_by(
    ports: &Ports,
    wires: &PackageConnections<'_>,
    direction: Direction,
    declaration: usize,
    port: usize,
) -> bool
    ensures { result ≡ spec.reaches_by ports.now (placed wires.now.uses.names.tree.now) direction declaration port }
{
    if wires.uses.is_thread(declaration) {
        is_way(direction, wires.is_in(declaration, port))
    } else {
        ports.has(PortAt { declaration, port })
    }
}

// Whether a port has a direction: `goes_in` is true for in ports.
fn is_way(direction: Direction, goes_in: bool) -> bool
    ensures { result ≡ spec.is_way direction goes_in }
{
    match direction {
        Direction::In => goes_in,
        Direction::Out => !goes_in,
    }
}

/// Returns the end of a connection at the subcomponent, for a port of this direction: the target for in ports,
/// the source for out ports.
pub fn inner_end(direction: Direction, wire: ConnectionPorts) -> Option<NumberedPort>
    ensures { result ≡ spec.inner_end direction wire }
{
    match direction {
        Direction::In => wire.target,
        Direction::Out => wire.source,
    }
}

/// Returns the other end.
pub fn outer_end(direction: Direction, wire: ConnectionPorts) -> Option<NumberedPort>
    ensures { result ≡ spec.outer_end direction wire }
{
    match direction {
        Direction::In => wire.source,
        Direction::Out => wire.target,
    }
}
