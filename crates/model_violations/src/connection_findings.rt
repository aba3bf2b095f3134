//! The violations of the connections of an implementation, independent of the chains that they carry.
ghost use Rattle.std.specs.Prelude.{◌≡◌, ◌||◌, ◌++◌, ℕ, OnOk, Some, option_map, slice_get};
ghost use Rattle.std.specs.Option.{is_some, option_and_then};
ghost use Rattle.aadl_tree.specs.proof.PlaceMaps.{kept_place};
ghost use Rattle.aadl_tree.specs.Declarations as trees;
ghost use Rattle.aadl_tree.specs.Declarations.{implementation};
ghost use Rattle.aadl_tree.specs.proof.NameViews.{identifier_view};
ghost use Rattle.aadl_tree.specs.proof.PackageViews.{placed};
ghost use Rattle.aadl_tree.specs.proof.DeclarationViews.{connection_view, implementation_view};
ghost use Rattle.aadl_names.specs.NameResolution.{features_of, implementation_at, type_numbered};
ghost use Rattle.aadl_uses.specs.PortsOfConnections.{ports_of_connection};
ghost use Rattle.model_violations.specs.ConnectionsAndCarriers.{adaptor_text, carries, is_delayed};
ghost use Rattle.model_violations.specs.ConnectionFindings as spec;
ghost use Rattle.model_violations.specs.proof.NumberedConnections.{IsConnection};

use crate::carriers::Carriers;
use aadl_instance::ConnectionAt;
use aadl_names::NumberedPort;
use aadl_names::declarations_by_number::type_numbered;
use aadl_tree::{Connection, Identifier, Implementation, PackageTree};
use aadl_uses::{ConnectionPorts, PackageConnections, Uses};
use annex_resolve::violation::{DELAYED_ROOT, STRAY_ADAPTOR};
use annex_resolve::{Violation, expect};
use component_checks::ChainProperties;
use component_checks::thread_findings::add_named;
use component_checks::type_findings::kind_in;
use pals_base::{ItemList, Kind, NoMemory};
use std::alloc::Global;

// The type of a port of the type with a number.
fn kind_numbered(tree: &PackageTree, of_type: Option<usize>, port: usize) -> Option<Kind>
    ensures { result ≡ spec.kind_numbered (features_of (type_numbered (placed tree.now) of_type)) port }
{
    let of_type = type_numbered(tree, of_type)?;
    let port = of_type.features.get(port)?;
    kind_in(&port.data_type)
}

// The type of a port of the implementation with a number, or of one of its subcomponents.
fn site_kind(uses: &Uses<'_>, number: usize, site: NumberedPort) -> Option<Kind>
    ensures { (x : trees.Implementation ℕ) → implementation_at (placed uses.now.names.tree.now) number ≡ Some x
        → result ≡ spec.site_kind (placed uses.now.names.tree.now) x site }
{
    let tree = uses.names.tree;
    match site {
        NumberedPort::Own(port) => kind_numbered(tree, uses.type_number(number), port),
        NumberedPort::Inner(sub, port) => kind_numbered(tree, uses.type_below(number, sub), port),
    }
}

// The type of the port at an end of a connection, if it is declared.
fn kind_at(uses: &Uses<'_>, number: usize, end: Option<NumberedPort>) -> Option<Kind>
    ensures { (x : trees.Implementation ℕ) → implementation_at (placed uses.now.names.tree.now) number ≡ Some x
        → result ≡ option_and_then (spec.site_kind (placed uses.now.names.tree.now) x) end }
{
    match end {
        Some(site) => site_kind(uses, number, site),
        None => None,
    }
}

// The ports that a connection joins, by its numbers.
fn wire_at(wires: &PackageConnections<'_>, place: ConnectionAt) -> ConnectionPorts
    ensures { (x : trees.Implementation ℕ) (c : trees.Connection ℕ)
        → IsConnection (placed wires.now.uses.names.tree.now) place.declaration place.connection x c
        → result ≡ ports_of_connection (placed wires.now.uses.names.tree.now) x c }
{
    match wires.wires(place.declaration).get(place.connection) {
        Some(wire) => *wire,
        None => ConnectionPorts {
            source: None,
            target: None,
        },
    }
}

// Whether an end is an own port.
fn is_own(port: &Option<Identifier>) -> bool
    ensures { result ≡ spec.is_own (option_map (identifier_view kept_place) port.now) }
{
    match port {
        None => true,
        Some(_) => false,
    }
}

// Whether a connection has an end at an own port.
fn joins_own(connection: &Connection) -> bool
    ensures { result ≡ spec.joins_own (connection_view kept_place connection.now) }
{
    is_own(&connection.source.second) || is_own(&connection.target.second)
}

// Appends a violation if the ends of a connection have different types.
fn add_ends_findings(
    alloc: Global,
    wires: &PackageConnections<'_>,
    place: ConnectionAt,
    connection: &Connection,
    found: &mut ItemList<Violation>,
) -> Result<(), NoMemory>
    ensures { OnOk result ((x : trees.Implementation ℕ)
        → IsConnection (placed wires.now.uses.names.tree.now) place.declaration place.connection x
        (connection_view kept_place connection.now)
        → found.new ≡ found.old ++ spec.ends_findings (placed wires.now.uses.names.tree.now) x
        (connection_view kept_place connection.now)) }
{
    let wire = wire_at(wires, place);
    let source = kind_at(&wires.uses, place.declaration, wire.source);
    let target = kind_at(&wires.uses, place.declaration, wire.target);
    expect(alloc, found, connection.name.at, source, target)?;
    Ok(())
}

fn is_delayed(connection: &Connection) -> bool
    ensures { result ≡ is_delayed (connection_view kept_place connection.now) }
{
    ChainProperties::of(connection.properties.as_slice()).delayed
}

#[tactic(auto, using(crate::proofs::MappedOptions::has_mapped))]
fn has_adaptor(connection: &Connection) -> bool
    ensures { result ≡ is_some (adaptor_text (connection_view kept_place connection.now)) }
{
    ChainProperties::of(connection.properties.as_slice())
        .adaptor
        .is_some()
}

// Appends a violation if a connection with an own port at one end is delayed.
fn add_delay_findings(
    alloc: Global,
    connection: &Connection,
    found: &mut ItemList<Violation>,
) -> Result<(), NoMemory>
    ensures { OnOk result (found.new ≡ found.old ++ spec.delay_findings (connection_view kept_place connection.now)) }
{
    add_named(
        alloc,
        found,
        joins_own(connection) && is_delayed(connection),
        connection.name.at,
        DELAYED_ROOT,
        connection.name.spelling.as_str(),
    )
}

// Appends a violation if a connection that is not a carrier has an adaptor.
fn add_adaptor_findings(
    alloc: Global,
    carried: bool,
    connection: &Connection,
    found: &mut ItemList<Violation>,
) -> Result<(), NoMemory>
    ensures { OnOk result (found.new ≡ found.old
        ++ spec.adaptor_findings carried (connection_view kept_place connection.now)) }
{
    add_named(
        alloc,
        found,
        !carried && has_adaptor(connection),
        connection.name.at,
        STRAY_ADAPTOR,
        connection.name.spelling.as_str(),
    )
}

// Appends the violations of the connection with these numbers.
fn add_connection_findings(
    alloc: Global,
    wires: &PackageConnections<'_>,
    carriers: &Carriers,
    place: ConnectionAt,
    connection: &Connection,
    found: &mut ItemList<Violation>,
) -> Result<(), NoMemory>
    ensures { OnOk result ((x : trees.Implementation ℕ)
        → IsConnection (placed wires.now.uses.names.tree.now) place.declaration place.connection x
        (connection_view kept_place connection.now)
        → found.new ≡ found.old
        ++ spec.connection_findings (placed wires.now.uses.names.tree.now) (carries carriers.now) place.declaration x
        (place.connection, connection_view kept_place connection.now)) }
{
    add_ends_findings(alloc, wires, place, connection, found)?;
    add_delay_findings(alloc, connection, found)?;
    add_adaptor_findings(alloc, carriers.has(place), connection, found)?;
    Ok(())
}

/// Appends the violations of the connections of the implementation with a number: ends of different types, a
/// delay at an own port, or an adaptor on a connection that is not a carrier. Errors: out of memory.
pub fn add_connections_findings(
    alloc: Global,
    wires: &PackageConnections<'_>,
    carriers: &Carriers,
    number: usize,
    x: &Implementation,
    found: &mut ItemList<Violation>,
) -> Result<(), NoMemory>
    requires { slice_get (placed wires.now.uses.names.tree.now).declarations number
        ≡ Some (implementation (implementation_view kept_place x.now)) }
    ensures { OnOk result (found.new ≡ found.old
        ++ spec.connections_findings (placed wires.now.uses.names.tree.now) (carries carriers.now) number
        (implementation_view kept_place x.now)) }
{
    for (at, connection) in x.connections.iter().enumerate() {
        let place = ConnectionAt {
            declaration: number,
            connection: at,
        };
        add_connection_findings(alloc, wires, carriers, place, connection, found)?;
    }
    Ok(())
}
