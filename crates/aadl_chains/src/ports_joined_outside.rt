//! The ports that connections join to threads or to the root's ports outside.
ghost use Rattle.std.specs.Prelude.{◌≡◌, ◌↔◌, ℕ, IfOk, OnOk, IsTrue, Contains};
ghost use Rattle.aadl_tree.specs.proof.PackageViews.{placed};
ghost use Rattle.aadl_uses.specs.proof.PackageContainment.{containment};
ghost use Rattle.aadl_uses.specs.ContainmentAndUse.{IsInUse};
ghost use Rattle.aadl_uses.specs.proof.ContainmentOrders.{IsOrder};
ghost use Rattle.aadl_chains.specs.proof.PortsJoinedInside.{IsInside};
ghost use Rattle.aadl_chains.specs.proof.PortsJoinedOutside as spec;
ghost use Rattle.aadl_chains.specs.proof.PortsJoinedOutside.{opposite, LeadsFrom, IsOutside, IsLed, AreLed};
ghost use Rattle.aadl_chains.specs.proof.PortsJoinedOutside.{AreLedIfUsed};

use crate::port_set::{PortAt, Ports};
use crate::ports_joined_inside::{JoinedInside, inner_end, outer_end, reaches_in};
use aadl_names::NumberedPort;
use aadl_tree::Direction;
use aadl_uses::{ConnectionPorts, PackageConnections};
use indexmap::IndexSet;
use std::alloc::{AllocError, Global};

/// The ports to compute, and the root: in ports that connections lead to from a source of messages, or out
/// ports that lead to a destination of messages.
#[derive(Clone, Copy)]
pub struct PortSearch {
    pub root: usize,
    pub direction: Direction,
}

/// The ports of implementations that connections join to threads or to the root's ports outside, in at least
/// one component of the implementation.
#[derive(Drop)]
pub struct JoinedOutside {
    pub side: PortSearch,
    pub ports: Ports,
}

impl JoinedOutside {
    /// Computes the ports of a package that are joined to threads or to the root's ports outside. Precondition:
    /// in `order`, each declaration follows the declarations that it contains; `used` has the declarations in
    /// use below the root; and the ports inside have the opposite direction. Errors: out of memory.
    pub fn of(
        alloc: Global,
        wires: &PackageConnections<'_>,
        inside: &JoinedInside,
        order: &IndexSet<usize>,
        used: &IndexSet<usize>,
        side: PortSearch,
    ) -> Result<JoinedOutside, AllocError>
        requires order { IsOrder (containment (placed wires.now.uses.names.tree.now)) order.now.keys }
        requires used { (n : ℕ) → Contains used.now.keys n
            ↔ IsInUse (placed wires.now.uses.names.tree.now) side.root n }
        requires opposite { inside.now.direction ≡ opposite side.direction }
        requires inside { IsInside (placed wires.now.uses.names.tree.now) (opposite side.direction) inside.now.ports }
        ensures { IfOk result (λ outside. (outside.side ≡ side)
            × IsOutside (placed wires.now.uses.names.tree.now) side.root side.direction outside.ports) }
    {
        let ports = ports_of(alloc, wires, inside, order, used, side)?;
        Ok(JoinedOutside { side, ports })
    }

    /// Returns whether connections lead from an end of a connection of an implementation in use to a thread or
    /// the root.
    pub fn leads(
        &self,
        wires: &PackageConnections<'_>,
        inside: &JoinedInside,
        declaration: usize,
        site: NumberedPort,
    ) -> bool
        requires outside { IsOutside (placed wires.now.uses.names.tree.now) self.now.side.root self.now.side.direction
            self.now.ports }
        requires opposite { inside.now.direction ≡ opposite self.now.side.direction }
        requires inside { IsInside (placed wires.now.uses.names.tree.now) (opposite self.now.side.direction)
            inside.now.ports }
        ensures { IsTrue result ↔ LeadsFrom (placed wires.now.uses.names.tree.now) self.now.side.root
            self.now.side.direction declaration site }
    {
        leads_from(
            &self.ports,
            wires,
            inside,
            self.side,
            declaration,
            Some(site),
        )
    }
}

// All ports that are joined to the outside.
fn ports_of(
    alloc: Global,
    wires: &PackageConnections<'_>,
    inside: &JoinedInside,
    order: &IndexSet<usize>,
    used: &IndexSet<usize>,
    side: PortSearch,
) -> Result<Ports, AllocError>
    requires order { IsOrder (containment (placed wires.now.uses.names.tree.now)) order.now.keys }
    requires used { (n : ℕ) → Contains used.now.keys n ↔ IsInUse (placed wires.now.uses.names.tree.now) side.root n }
    requires opposite { inside.now.direction ≡ opposite side.direction }
    requires inside { IsInside (placed wires.now.uses.names.tree.now) (opposite side.direction) inside.now.ports }
    ensures { IfOk result (λ ports. IsOutside (placed wires.now.uses.names.tree.now) side.root side.direction ports) }
{
    let mut ports = Ports::new(alloc);
    for at in 0..order.len() {
        if let Some(number) = order.get_index(order.len() - 1 - at) {
            let number = *number;
            lead_if_used(&mut ports, wires, inside, used, side, number)?;
        }
    }
    Ok(ports)
}

// Adds the ports that the connections of a declaration join to the outside, if the declaration is in use.
fn lead_if_used(
    ports: &mut Ports,
    wires: &PackageConnections<'_>,
    inside: &JoinedInside,
    used: &IndexSet<usize>,
    side: PortSearch,
    number: usize,
) -> Result<(), AllocError>
    requires used { (n : ℕ) → Contains used.now.keys n ↔ IsInUse (placed wires.now.uses.names.tree.now) side.root n }
    requires opposite { inside.now.direction ≡ opposite side.direction }
    requires inside { IsInside (placed wires.now.uses.names.tree.now) (opposite side.direction) inside.now.ports }
    ensures { OnOk result (AreLedIfUsed (placed wires.now.uses.names.tree.now) side.root side.direction number ports.old
        ports.new) }
{
    if used.contains(&number) {
        lead_each(ports, wires, inside, side, number)
    } else {
        Ok(())
    }
}

// Adds the ports that the connections of an implementation in use join to the outside.
fn lead_each(
    ports: &mut Ports,
    wires: &PackageConnections<'_>,
    inside: &JoinedInside,
    side: PortSearch,
    number: usize,
) -> Result<(), AllocError>
    requires used { IsInUse (placed wires.now.uses.names.tree.now) side.root number }
    requires opposite { inside.now.direction ≡ opposite side.direction }
    requires inside { IsInside (placed wires.now.uses.names.tree.now) (opposite side.direction) inside.now.ports }
    ensures { OnOk result (AreLed (placed wires.now.uses.names.tree.now) side.root side.direction number ports.old
        ports.new) }
{
    for wire in wires.wires(number) {
        lead(ports, wires, inside, side, number, *wire)?;
    }
    Ok(())
}

// Adds the port that a connection joins to the outside.
fn lead(
    ports: &mut Ports,
    wires: &PackageConnections<'_>,
    inside: &JoinedInside,
    side: PortSearch,
    number: usize,
    wire: ConnectionPorts,
) -> Result<(), AllocError>
    requires opposite { inside.now.direction ≡ opposite side.direction }
    requires inside { IsInside (placed wires.now.uses.names.tree.now) (opposite side.direction) inside.now.ports }
    ensures { OnOk result (IsLed (placed wires.now.uses.names.tree.now) side.root side.direction inside.now.ports number
        wire ports.old ports.new) }
{
    match led(ports, wires, inside, side, number, wire) {
        Some(port) => ports.add(port),
        None => Ok(()),
    }
}

// The port of a subcomponent that a connection joins to the outside.
fn led(
    ports: &Ports,
    wires: &PackageConnections<'_>,
    inside: &JoinedInside,
    side: PortSearch,
    number: usize,
    wire: ConnectionPorts,
) -> Option<PortAt>
    requires { inside.now.direction ≡ opposite side.direction }
    ensures { result ≡ spec.led_by ports.now inside.now.ports (placed wires.now.uses.names.tree.now) side.root
        side.direction number wire }
{
    if leads_from(
        ports,
        wires,
        inside,
        side,
        number,
        outer_end(side.direction, wire),
    ) {
        port_in(wires, number, inner_end(side.direction, wire))
    } else {
        None
    }
}

// Whether an end of a connection leads to a thread or the root, according to the sets.
fn leads_from(
    ports: &Ports,
    wires: &PackageConnections<'_>,
    inside: &JoinedInside,
    side: PortSearch,
    number: usize,
    site: Option<NumberedPort>,
) -> bool
    requires { inside.now.direction ≡ opposite side.direction }
    ensures { result ≡ spec.leads_from ports.now inside.now.ports (placed wires.now.uses.names.tree.now) side.root
        side.direction number site }
{
    match site {
        Some(NumberedPort::Own(port)) => {
            number == side.root
                || ports.has(PortAt {
                    declaration: number,
                    port,
                })
        }
        Some(NumberedPort::Inner(sub, port)) => {
            let below = wires.uses.below(number, sub);
            reaches_in(&inside.ports, wires, inside.direction, below, port)
        }
        None => false,
    }
}

// The port of a subcomponent that an end of a connection names.
fn port_in(
    wires: &PackageConnections<'_>,
    number: usize,
    site: Option<NumberedPort>,
) -> Option<PortAt>
    ensures { result ≡ spec.port_in (placed wires.now.uses.names.tree.now) number site }
{
    match site {
        Some(NumberedPort::Inner(sub, port)) => port_below(wires.uses.below(number, sub), port),
        Some(NumberedPort::Own(_)) => None,
        None => None,
    }
}

fn port_below(declaration: Option<usize>, port: usize) -> Option<PortAt>
    ensures { result ≡ spec.port_below declaration port }
{
    match declaration {
        Some(declaration) => Some(PortAt { declaration, port }),
        None => None,
    }
}
