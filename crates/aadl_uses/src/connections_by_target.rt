//! The connections of one declaration, indexed by their target port.
ghost use Rattle.std.specs.Prelude.{◌≡◌, ◌↔◌, None, Some, IfOk, OnOk, IsTrue, if◌then◌else◌};
ghost use Rattle.std.specs.Option.{option_or};
ghost use Rattle.aadl_names.specs.declared.numbered_port.NumberedPort.{NumberedPort};
ghost use Rattle.aadl_uses.specs.proof.NumbersByPort.{is_port, number_of};
ghost use Rattle.aadl_uses.specs.SecondConnections as spec;
ghost use Rattle.aadl_uses.specs.proof.FirstConnections as inner;

use aadl_names::NumberedPort;
use indexmap::IndexMap;
use pals_base::ItemList;
use std::alloc::{AllocError, Global};
use std::marker::Model;

/// A connection, as the ports that it joins in their declarations.
#[derive(Clone, Copy)]
pub struct ConnectionPorts {
    pub source: Option<NumberedPort>,
    pub target: Option<NumberedPort>,
}

/// The connections of a declaration. The model is their list.
pub struct Connections {
    wires: ItemList<ConnectionPorts>,
    // the first connection into each port
    firsts: IndexMap<NumberedPort, usize>,
}

impl Drop for Connections {
    fn drop(self) {
        let Connections {
            wires: _,
            firsts: _,
        } = self;
    }
}

impl Model for Connections {
    ghost use Rattle.std.specs.Prelude.{◌≡◌, List};
    ghost use Rattle.aadl_names.specs.declared.numbered_port.NumberedPort.{NumberedPort};
    ghost use Rattle.aadl_uses.specs.declared.connections_by_target.ConnectionPorts.{ConnectionPorts};
    ghost use Rattle.aadl_uses.specs.proof.NumbersByPort.{number_of};
    ghost use Rattle.aadl_uses.specs.SecondConnections as spec;
    ghost use Rattle.aadl_uses.specs.proof.FirstConnections as inner;

    ghost Value = { List ConnectionPorts };

    ghost view = { λ c. c.wires };

    ghost invariant = { λ c. (target : NumberedPort)
        → number_of c.firsts.entries target ≡ inner.first_into c.wires target };
}

impl Connections {
    /// Builds the index of these connections, which keep their order. Errors: out of memory.
    pub fn of(alloc: Global, wires: ItemList<ConnectionPorts>) -> Result<Connections, AllocError>
        ensures { IfOk result (λ connections. connections ≡ wires) }
    {
        let firsts = firsts_of(alloc, wires.as_slice())?;
        Ok(Connections { wires, firsts })
    }

    /// Returns the connections in order.
    pub fn as_slice(&self) -> &[ConnectionPorts]
        ensures { result.now ≡ self.now }
    {
        self.wires.as_slice()
    }

    /// Returns the number of the first connection into a port.
    pub fn first_into(&self, target: NumberedPort) -> Option<usize>
        ensures { result ≡ inner.first_into self.now target }
    {
        self.firsts.get(&target).copied()
    }

    /// Returns whether a connection has the same target as an earlier one.
    pub fn is_second(&self, number: usize) -> bool
        ensures { IsTrue result ↔ spec.IsDuplicate self.now number }
    {
        match target_at(self.as_slice(), number) {
            Some(target) => is_before(self.first_into(target), number),
            None => false,
        }
    }
}

fn target_at(wires: &[ConnectionPorts], number: usize) -> Option<NumberedPort>
    ensures { result ≡ spec.target_in wires.now number }
{
    match wires.get(number) {
        Some(wire) => wire.target,
        None => None,
    }
}

// Whether there is a first number, and it is below the other.
fn is_before(first: Option<usize>, number: usize) -> bool
    ensures { result ≡ inner.is_before first number }
{
    match first {
        Some(first) => first < number,
        None => false,
    }
}

// The number of the first connection into each port.
fn firsts_of(
    alloc: Global,
    wires: &[ConnectionPorts],
) -> Result<IndexMap<NumberedPort, usize>, AllocError>
    ensures { IfOk result (λ firsts. (target : NumberedPort)
        → number_of firsts.entries target ≡ inner.first_into wires.now target) }
{
    let mut firsts = IndexMap::new(alloc);
    for (number, wire) in wires.iter().enumerate() {
        add_first(&mut firsts, wire.target, number)?;
    }
    Ok(firsts)
}

// Adds the number of a connection into a port, unless the port already has one.
fn add_first(
    firsts: &mut IndexMap<NumberedPort, usize>,
    target: Option<NumberedPort>,
    number: usize,
) -> Result<(), AllocError>
    ensures { OnOk result ((other : NumberedPort)
        → number_of firsts.new.entries other ≡ option_or (number_of firsts.old.entries other)
        (if is_port other target then Some number else None)) }
{
    match target {
        None => Ok(()),
        Some(target) => add_number(firsts, target, number),
    }
}

fn add_number(
    firsts: &mut IndexMap<NumberedPort, usize>,
    target: NumberedPort,
    number: usize,
) -> Result<(), AllocError>
    ensures { OnOk result ((other : NumberedPort)
        → number_of firsts.new.entries other ≡ option_or (number_of firsts.old.entries other)
        (if is_port other (Some target) then Some number else None)) }
{
    if firsts.get(&target).is_none() {
        firsts.insert(target, number)?;
    }
    Ok(())
}
