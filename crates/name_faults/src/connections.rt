//! Checks of the names in connections.
#![tactic(auto, using(aadl_names::proofs::FirstFaultSoFar::found_append))]

ghost use Rattle.std.specs.Prelude.{◌≡◌, ℕ, OnOk, flat_map, option_map};
ghost use Rattle.aadl_tree.specs.Declarations as trees;
ghost use Rattle.aadl_tree.specs.proof.PackageViews.{placed};
ghost use Rattle.aadl_tree.specs.proof.DeclarationViews.{implementation_view, connection_view, end_view};
ghost use Rattle.aadl_tree.specs.proof.PlaceMaps.{kept_place};
ghost use Rattle.aadl_names.specs.proof.FirstFaultSoFar.{found};
ghost use Rattle.aadl_names.specs.NameResolution as resolving;
ghost use Rattle.aadl_names.specs.PackageNameFaults as spec;
ghost use Rattle.name_faults.specs.proof.NumberedImplementations.{StandsAt};

use crate::check_properties;
use aadl_names::qualified_names::spelled_end;
use aadl_names::type_ports::port_direction;
use aadl_names::{FaultFinder, NumberedPort, PropertyHolder};
use aadl_tree::{Connection, ConnectionEnd, Direction, Implementation};
use aadl_uses::{PackageConnections, Uses};
use std::alloc::AllocError;

// The direction of a port in the context of the implementation with a number.
fn direction_of(uses: &Uses<'_>, number: usize, site: NumberedPort) -> Option<Direction>
    ensures { (x : trees.Implementation ℕ) → StandsAt (placed uses.now.names.tree.now) number x
        → result ≡ resolving.direction_of (placed uses.now.names.tree.now) x site }
{
    match site {
        NumberedPort::Own(port) => port_direction(&uses.names, uses.type_number(number), port),
        NumberedPort::Inner(sub, port) => port_direction(
            &uses.names,
            uses.type_below(number, sub),
            port,
        ),
    }
}

// A port in the context of the implementation with a number, and its direction.
fn with_direction(
    uses: &Uses<'_>,
    number: usize,
    site: Option<NumberedPort>,
) -> Option<(NumberedPort, Option<Direction>)>
    ensures { (x : trees.Implementation ℕ) → StandsAt (placed uses.now.names.tree.now) number x
        → result ≡ option_map (resolving.with_direction (placed uses.now.names.tree.now) x) site }
{
    let site = site?;
    Some((site, direction_of(uses, number, site)))
}

// Whether a port is an in port.
fn goes_in(direction: Option<Direction>) -> bool
    ensures { result ≡ spec.goes_in direction }
{
    match direction {
        Some(Direction::In) => true,
        Some(Direction::Out) => false,
        None => false,
    }
}

// Whether a port can be the source of a connection.
fn may_leave(site: NumberedPort, direction: Option<Direction>) -> bool
    ensures { result ≡ spec.may_leave (site, direction) }
{
    match site {
        NumberedPort::Own(_) => goes_in(direction),
        NumberedPort::Inner(_, _) => !goes_in(direction),
    }
}

fn check_source(
    finder: &mut FaultFinder,
    end: &ConnectionEnd,
    at: usize,
    port: Option<(NumberedPort, Option<Direction>)>,
) -> Result<(), AllocError>
    ensures { OnOk result (finder.new ≡ found finder.old
        (spec.end_faults spec.may_leave (end_view kept_place end.now) at port)) }
{
    match port {
        Some((site, direction)) => {
            finder.wrong_if(!may_leave(site, direction), at);
            Ok(())
        }
        None => unknown_end(finder, end),
    }
}

fn check_target(
    finder: &mut FaultFinder,
    end: &ConnectionEnd,
    at: usize,
    port: Option<(NumberedPort, Option<Direction>)>,
) -> Result<(), AllocError>
    ensures { OnOk result (finder.new ≡ found finder.old
        (spec.end_faults spec.may_enter (end_view kept_place end.now) at port)) }
{
    match port {
        Some((site, direction)) => {
            let may_enter = !may_leave(site, direction);
            finder.wrong_if(!may_enter, at);
            Ok(())
        }
        None => unknown_end(finder, end),
    }
}

fn unknown_end(finder: &mut FaultFinder, end: &ConnectionEnd) -> Result<(), AllocError>
    ensures { OnOk result (finder.new ≡ found finder.old (spec.unknown_end (end_view kept_place end.now))) }
{
    let name = spelled_end(finder.alloc(), end)?;
    finder.unknown(name.as_str(), end.first.at)
}

fn is_own(port: Option<(NumberedPort, Option<Direction>)>) -> bool
    ensures { result ≡ spec.is_own port }
{
    match port {
        Some((NumberedPort::Own(_), _)) => true,
        Some((NumberedPort::Inner(_, _), _)) => false,
        None => false,
    }
}

// Reports the faults of a connection that joins these ports.
fn check_connection(
    finder: &mut FaultFinder,
    source: Option<(NumberedPort, Option<Direction>)>,
    target: Option<(NumberedPort, Option<Direction>)>,
    connection: &Connection,
) -> Result<(), AllocError>
    ensures { OnOk result (finder.new ≡ found finder.old
        (spec.joined_faults (connection_view kept_place connection.now) source target)) }
{
    let at = connection.name.at;
    check_source(finder, &connection.source, at, source)?;
    check_target(finder, &connection.target, at, target)?;
    finder.wrong_if(is_own(source) && is_own(target), at);
    check_properties(
        finder,
        PropertyHolder::Connection,
        connection.properties.as_slice(),
    )
}

/// Reports the faults of the connections of the implementation with a number. Errors: out of memory.
pub fn check_connections(
    finder: &mut FaultFinder,
    wires: &PackageConnections<'_>,
    number: usize,
    x: &Implementation,
) -> Result<(), AllocError>
    requires { StandsAt (placed wires.now.uses.names.tree.now) number (implementation_view kept_place x.now) }
    ensures { OnOk result (finder.new ≡ found finder.old
        (flat_map (spec.connection_faults (placed wires.now.uses.names.tree.now) (implementation_view kept_place x.now))
        (implementation_view kept_place x.now).connections)) }
{
    for (connection, wire) in x.connections.iter().zip(wires.wires(number)) {
        let source = with_direction(&wires.uses, number, wire.source);
        let target = with_direction(&wires.uses, number, wire.target);
        check_connection(finder, source, target, connection)?;
    }
    Ok(())
}
