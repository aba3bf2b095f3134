//! The connections that are on connection chains.
ghost use Rattle.std.specs.Prelude.{◌≡◌, ◌↔◌, ◌&&◌, ℕ, Some, IfOk, IsTrue, Contains};
ghost use Rattle.aadl_tree.specs.proof.PackageViews.{placed};
ghost use Rattle.aadl_uses.specs.proof.PackageContainment.{containment};
ghost use Rattle.aadl_uses.specs.ContainmentAndUse.{IsInUse};
ghost use Rattle.aadl_uses.specs.proof.ContainmentOrders.{IsOrder};
ghost use Rattle.aadl_chains.specs.proof.ConnectionsOnChains.{IsOnChain, AreChainPorts};

use crate::{JoinedInside, JoinedOutside, PortSearch};
use aadl_names::NumberedPort;
use aadl_tree::Direction;
use aadl_uses::{ConnectionPorts, PackageConnections};
use indexmap::IndexSet;
use std::alloc::{AllocError, Global};

/// The ports that connections join to threads below, and to threads or the root outside.
pub struct JoinedPorts {
    /// The number of the root.
    pub root: usize,
    /// The out ports that carry a value of a thread below.
    pub gives: JoinedInside,
    /// The in ports whose values reach a thread below.
    pub takes: JoinedInside,
    /// The in ports that receive a value from outside.
    pub fed: JoinedOutside,
    /// The out ports whose values leave to the outside.
    pub led: JoinedOutside,
}

impl Drop for JoinedPorts {
    fn drop(self) {
        let JoinedPorts {
            root: _,
            gives: _,
            takes: _,
            fed: _,
            led: _,
        } = self;
    }
}

impl JoinedPorts {
    /// Computes the ports of a package below a root. Precondition: in `order`, each declaration follows the
    /// declarations that it contains, and `used` has the declarations in use below the root. Errors: out of
    /// memory.
    pub fn of(
        alloc: Global,
        wires: &PackageConnections<'_>,
        order: &IndexSet<usize>,
        used: &IndexSet<usize>,
        root: usize,
    ) -> Result<JoinedPorts, AllocError>
        requires order { IsOrder (containment (placed wires.now.uses.names.tree.now)) order.now.keys }
        requires used { (n : ℕ) → Contains used.now.keys n ↔ IsInUse (placed wires.now.uses.names.tree.now) root n }
        ensures { IfOk result (λ ways. (ways.root ≡ root) × AreChainPorts (placed wires.now.uses.names.tree.now) ways) }
    {
        let gives = JoinedInside::of(alloc, wires, order, Direction::Out)?;
        let takes = JoinedInside::of(alloc, wires, order, Direction::In)?;
        let inward = PortSearch {
            root,
            direction: Direction::In,
        };
        let fed = JoinedOutside::of(alloc, wires, &gives, order, used, inward)?;
        let outward = PortSearch {
            root,
            direction: Direction::Out,
        };
        let led = JoinedOutside::of(alloc, wires, &takes, order, used, outward)?;
        Ok(JoinedPorts {
            root,
            gives,
            takes,
            fed,
            led,
        })
    }

    /// Returns whether a connection of an implementation in use is on a connection chain in at least one
    /// component of the implementation.
    pub fn has(&self, wires: &PackageConnections<'_>, number: usize, wire: ConnectionPorts) -> bool
        requires { AreChainPorts (placed wires.now.uses.names.tree.now) self.now }
        ensures { IsTrue result ↔ IsOnChain (placed wires.now.uses.names.tree.now) self.now.root number wire }
    {
        match wire.source {
            Some(source) => self.goes_on(wires, number, wire, source),
            None => false,
        }
    }

    // Whether a connection from this port is on a connection chain.
    fn goes_on(
        &self,
        wires: &PackageConnections<'_>,
        number: usize,
        wire: ConnectionPorts,
        source: NumberedPort,
    ) -> bool
        requires ways { AreChainPorts (placed wires.now.uses.names.tree.now) self.now }
        requires source { wire.source ≡ Some source }
        ensures { IsTrue result ↔ IsOnChain (placed wires.now.uses.names.tree.now) self.now.root number wire }
    {
        match wire.target {
            Some(target) => {
                let comes = self.fed.leads(wires, &self.gives, number, source);
                let goes = self.led.leads(wires, &self.takes, number, target);
                both(comes, goes)
            }
            None => false,
        }
    }
}

fn both(comes: bool, goes: bool) -> bool
    ensures { result ≡ (comes && goes) }
{
    comes && goes
}
