//! For each in port of an implementation: the number of threads' in ports that its connections lead to.
ghost use Rattle.std.specs.Prelude.{◌≡◌, ◌+◌, ℕ, min, Some, slice_get, IfOk, OnOk, Contains, if◌then◌else◌};
ghost use Rattle.aadl_tree.specs.proof.PackageViews.{placed};
ghost use Rattle.aadl_uses.specs.proof.PackageContainment.{containment};
ghost use Rattle.aadl_uses.specs.PortsOfConnections.{connection_ports_at};
ghost use Rattle.aadl_uses.specs.proof.ContainmentOrders.{IsOrder};
ghost use Rattle.aadl_chains.specs.declared.port_set.PortAt.{PortAt};
ghost use Rattle.aadl_chains.specs.proof.PortSets.{same_port};
ghost use Rattle.aadl_chains.specs.proof.PermittedConnections.{ArePermitted};
ghost use Rattle.aadl_chains.specs.proof.LimitedCounts.{IsNumber};
ghost use Rattle.aadl_chains.specs.proof.EnteredPortCountTables.{entered_count, entered_count_by, AreCounted};
ghost use Rattle.aadl_chains.specs.proof.EnteredPortCountTables.{AreTakenBelow, IsCounted};
ghost use Rattle.aadl_chains.specs.proof.EnteredPortCountTables.{AreAdded};
ghost use Rattle.aadl_chains.specs.proof.EnteredThreadPorts.{IsEnteredThrough};

use crate::PortAt;
use aadl_names::NumberedPort;
use aadl_uses::marked_counts::add_up_to;
use aadl_uses::{ConnectionPorts, PackageConnections};
use indexmap::{IndexMap, IndexSet};
use std::alloc::{AllocError, Global};
use std::marker::Model;

/// The in ports of implementations other than threads, each with the number of threads' in ports that
/// connections lead to from it. The model is the list of entries.
pub struct PortCounts {
    numbers: IndexMap<PortAt, usize>,
}

impl Drop for PortCounts {
    fn drop(self) {
        let PortCounts { numbers: _ } = self;
    }
}

impl Model for PortCounts {
    ghost use Rattle.std.specs.Prelude.{ℕ, List};
    ghost use Rattle.aadl_chains.specs.declared.port_set.PortAt.{PortAt};

    ghost Value = { List (PortAt × ℕ) };

    ghost view = { λ t. t.numbers.entries };
}

impl PortCounts {
    /// Counts the ports of a package, each up to a limit. Precondition: in `order`, each declaration follows
    /// the declarations that it contains. Errors: out of memory.
    pub fn of(
        alloc: Global,
        wires: &PackageConnections<'_>,
        order: &IndexSet<usize>,
        limit: usize,
    ) -> Result<PortCounts, AllocError>
        requires order { IsOrder (containment (placed wires.now.uses.names.tree.now)) order.now.keys }
        requires declared { ArePermitted (placed wires.now.uses.names.tree.now) }
        ensures { IfOk result (λ takes. (n : ℕ) → Contains order.now.keys n
            → AreCounted (placed wires.now.uses.names.tree.now) limit takes n) }
    {
        let mut takes = PortCounts {
            numbers: IndexMap::new(alloc),
        };
        for at in 0..order.len() {
            if let Some(number) = order.get_index(at) {
                let number = *number;
                takes.add_all(wires, number, limit)?;
            }
        }
        Ok(takes)
    }

    /// Returns the number of threads' in ports that a connection leads to from its target; `limit` if there are
    /// more. A connection that is not the first one into its target counts as 0.
    pub fn through(
        &self,
        wires: &PackageConnections<'_>,
        number: usize,
        at: usize,
        wire: ConnectionPorts,
        limit: usize,
    ) -> usize
        requires wire { slice_get (connection_ports_at (placed wires.now.uses.names.tree.now) number) at ≡ Some wire }
        requires declared { ArePermitted (placed wires.now.uses.names.tree.now) }
        ensures { AreTakenBelow (placed wires.now.uses.names.tree.now) limit self.now number
            → IsNumber limit (IsEnteredThrough (placed wires.now.uses.names.tree.now) number at) result }
    {
        match wire.target {
            Some(target) => match target {
                NumberedPort::Inner(sub, port) => {
                    if wires.is_second(number, at) {
                        0
                    } else {
                        self.below(wires, wires.uses.below(number, sub), port, limit)
                    }
                }
                NumberedPort::Own(_) => 0,
            },
            None => 0,
        }
    }

    // The number of threads' in ports that a port of a declaration leads to; for a thread, 1 if the port is an
    // in port.
    fn below(
        &self,
        wires: &PackageConnections<'_>,
        declaration: Option<usize>,
        port: usize,
        limit: usize,
    ) -> usize
        ensures { result ≡ entered_count_by limit self.now (placed wires.now.uses.names.tree.now) declaration port }
    {
        match declaration {
            Some(declaration) => {
                if wires.uses.is_thread(declaration) {
                    if wires.is_in(declaration, port) {
                        limit.min(1)
                    } else {
                        0
                    }
                } else {
                    self.at(PortAt { declaration, port })
                }
            }
            None => 0,
        }
    }

    fn at(&self, port: PortAt) -> usize
        ensures { result ≡ entered_count self.now port }
    {
        match self.numbers.get(&port) {
            Some(number) => *number,
            None => 0,
        }
    }

    // Adds the counts of the connections of an implementation.
    fn add_all(
        &mut self,
        wires: &PackageConnections<'_>,
        number: usize,
        limit: usize,
    ) -> Result<(), AllocError>
        requires { ArePermitted (placed wires.now.uses.names.tree.now) }
        ensures { OnOk result (AreAdded (placed wires.now.uses.names.tree.now) limit number self.old self.new) }
    {
        for (at, wire) in wires.wires(number).iter().enumerate() {
            self.add(wires, number, at, *wire, limit)?;
        }
        Ok(())
    }

    // Adds the count of a connection, if its source is an own port.
    fn add(
        &mut self,
        wires: &PackageConnections<'_>,
        number: usize,
        at: usize,
        wire: ConnectionPorts,
        limit: usize,
    ) -> Result<(), AllocError>
        requires wire { slice_get (connection_ports_at (placed wires.now.uses.names.tree.now) number) at ≡ Some wire }
        requires declared { ArePermitted (placed wires.now.uses.names.tree.now) }
        ensures { OnOk result (IsCounted (placed wires.now.uses.names.tree.now) limit number at wire self.old
            self.new) }
    {
        match wire.source {
            Some(source) => match source {
                NumberedPort::Own(port) => {
                    let more = self.through(wires, number, at, wire, limit);
                    let port = PortAt {
                        declaration: number,
                        port,
                    };
                    self.increase(port, more, limit)
                }
                NumberedPort::Inner(_, _) => Ok(()),
            },
            None => Ok(()),
        }
    }

    // Increases the count of a port.
    fn increase(&mut self, port: PortAt, more: usize, limit: usize) -> Result<(), AllocError>
        ensures { OnOk result ((other : PortAt)
            → entered_count self.new other ≡ (if same_port port other
            then min limit (entered_count self.old port + more) else entered_count self.old other)) }
    {
        let number = add_up_to(limit, self.at(port), more);
        self.numbers.insert(port, number)?;
        Ok(())
    }
}
