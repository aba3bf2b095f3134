//! Sets of ports.

use indexmap::IndexSet;
use std::alloc::{AllocError, Global};
use std::marker::Model;

/// A port of a declaration; both numbers follow the order of the text.
#[derive(Clone, Copy, PartialEq, Eq, Hash)]
pub struct PortAt {
    pub declaration: usize,
    pub port: usize,
}

/// A set of ports. The model is a list of its members.
pub struct Ports {
    ports: IndexSet<PortAt>,
}

impl Drop for Ports {
    fn drop(self) {
        let Ports { ports: _ } = self;
    }
}

impl Model for Ports {
    ghost use Rattle.std.specs.Prelude.{List};
    ghost use Rattle.aadl_chains.specs.declared.port_set.PortAt.{PortAt};

    ghost Value = { List PortAt };

    ghost view = { λ p. p.ports.keys };
}

impl Ports {
    ghost use Rattle.std.specs.Prelude.{◌≡◌, [], OnOk};
    ghost use Rattle.aadl_chains.specs.proof.PortSets.{has, with_port};

    /// Returns an empty set. Does not allocate.
    pub fn new(alloc: Global) -> Ports
        ensures { result ≡ [] }
    {
        Ports {
            ports: IndexSet::new(alloc),
        }
    }

    /// Returns whether a port is in the set.
    pub fn has(&self, port: PortAt) -> bool
        ensures { result ≡ has self.now port }
    {
        self.ports.contains(&port)
    }

    /// Adds a port, unless it is in the set. Errors: out of memory.
    pub fn add(&mut self, port: PortAt) -> Result<(), AllocError>
        ensures { OnOk result (self.new ≡ with_port self.old port) }
    {
        self.ports.insert(port)?;
        Ok(())
    }
}
