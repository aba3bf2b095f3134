//! Connections on no connection chain, and connections that share a target port.
ghost use Rattle.std.specs.Prelude.{◌≡◌, ◌↔◌, ℕ, Some, slice_get, IfOk, OnOk, Contains};
ghost use Rattle.aadl_tree.specs.proof.PackageViews.{placed};
ghost use Rattle.aadl_tree.specs.proof.DeclarationViews.{connection_view};
ghost use Rattle.aadl_tree.specs.proof.PlaceMaps.{kept_place};
ghost use Rattle.aadl_names.specs.proof.FirstFaultSoFar.{found};
ghost use Rattle.aadl_uses.specs.proof.PackageContainment.{containment};
ghost use Rattle.aadl_uses.specs.proof.FirstRecursion.{FirstIn};
ghost use Rattle.aadl_uses.specs.ContainmentAndUse.{IsInUse};
ghost use Rattle.aadl_uses.specs.PortsOfConnections.{connection_ports_at};
ghost use Rattle.aadl_uses.specs.proof.ContainmentOrders.{IsOrder};
ghost use Rattle.aadl_chains.specs.ChainFaults.{IsEndFault};
ghost use Rattle.aadl_chains.specs.proof.PermittedConnections.{ArePermitted};
ghost use Rattle.aadl_chains.specs.proof.ConnectionsOnChains.{AreChainPorts};
ghost use Rattle.aadl_chains.specs.proof.FoundChainFaults.{FindsAll, IsFoundIn, IsFoundAt, dead_end, second};

use crate::chain_connections::JoinedPorts;
use aadl_names::{FaultFinder, PackageFault};
use aadl_tree::Connection;
use aadl_uses::{ConnectionPorts, PackageConnections};
use indexmap::IndexSet;
use std::alloc::{AllocError, Global};

/// Returns the first connection of an implementation in use that is on no connection chain, or that has the
/// same target as an earlier one. Precondition: the names of the package have no fault, and no implementation
/// contains itself. Errors: out of memory.
pub fn first_end_fault(
    alloc: Global,
    wires: &PackageConnections<'_>,
    order: &IndexSet<usize>,
    used: &IndexSet<usize>,
    root: usize,
) -> Result<Option<PackageFault>, AllocError>
    requires order { IsOrder (containment (placed wires.now.uses.names.tree.now)) order.now.keys }
    requires used { (n : ℕ) → Contains used.now.keys n ↔ IsInUse (placed wires.now.uses.names.tree.now) root n }
    requires declared { ArePermitted (placed wires.now.uses.names.tree.now) }
    ensures { IfOk result (FirstIn (IsEndFault (placed wires.now.uses.names.tree.now) root)) }
{
    let ways = JoinedPorts::of(alloc, wires, order, used, root)?;
    let mut finder = FaultFinder::new(alloc);
    for at in 0..used.len() {
        if let Some(number) = used.get_index(at) {
            let number = *number;
            check_all(&mut finder, wires, &ways, number)?;
        }
    }
    Ok(finder.finish())
}

// Reports the faults at the ends of the connections of an implementation.
fn check_all(
    finder: &mut FaultFinder,
    wires: &PackageConnections<'_>,
    ways: &JoinedPorts,
    number: usize,
) -> Result<(), AllocError>
    requires { AreChainPorts (placed wires.now.uses.names.tree.now) ways.now }
    ensures { OnOk result (FindsAll (IsFoundIn (placed wires.now.uses.names.tree.now) ways.now.root number) finder.old
        finder.new) }
{
    for (at, wire) in wires.wires(number).iter().enumerate() {
        check(finder, wires, ways, number, at, *wire)?;
    }
    Ok(())
}

// Reports the faults at the ends of a connection.
fn check(
    finder: &mut FaultFinder,
    wires: &PackageConnections<'_>,
    ways: &JoinedPorts,
    number: usize,
    at: usize,
    wire: ConnectionPorts,
) -> Result<(), AllocError>
    requires ways { AreChainPorts (placed wires.now.uses.names.tree.now) ways.now }
    requires wire { slice_get (connection_ports_at (placed wires.now.uses.names.tree.now) number) at ≡ Some wire }
    ensures { OnOk result (FindsAll (IsFoundAt (placed wires.now.uses.names.tree.now) ways.now.root number at)
        finder.old finder.new) }
{
    match wires.connection(number, at) {
        Some(connection) => {
            let is_on_way = ways.has(wires, number, wire);
            let is_second = wires.is_second(number, at);
            report(finder, connection, is_on_way, is_second)
        }
        None => Ok(()),
    }
}

// Reports that a connection is on no connection chain, and that it is not the first one into its target.
fn report(
    finder: &mut FaultFinder,
    connection: &Connection,
    is_on_way: bool,
    is_second: bool,
) -> Result<(), AllocError>
    ensures { OnOk result (finder.new ≡ found
        (found finder.old (dead_end is_on_way (connection_view kept_place connection.now)))
        (second is_second (connection_view kept_place connection.now))) }
{
    report_dead_end(finder, connection, is_on_way)?;
    report_second(finder, connection, is_second)
}

fn report_dead_end(
    finder: &mut FaultFinder,
    connection: &Connection,
    is_on_way: bool,
) -> Result<(), AllocError>
    ensures { OnOk result (finder.new ≡ found finder.old
        (dead_end is_on_way (connection_view kept_place connection.now))) }
{
    if is_on_way {
        Ok(())
    } else {
        finder.dead_end(connection.name.spelling.as_str(), connection.name.at)
    }
}

fn report_second(
    finder: &mut FaultFinder,
    connection: &Connection,
    is_second: bool,
) -> Result<(), AllocError>
    ensures { OnOk result (finder.new ≡ found finder.old
        (second is_second (connection_view kept_place connection.now))) }
{
    if is_second {
        finder.two_sources(connection.name.spelling.as_str(), connection.name.at)
    } else {
        Ok(())
    }
}
