//! The connections of the ports of components, found once for a design.
ghost use Rattle.std.specs.Prelude.{◌<◌, IfOk, length};

use crate::taps::all_taps;
use pals_base::{ItemList, NoMemory};
use pals_model::port_sources::all_sources;
use pals_model::{Component, Design, PortSource};
use std::alloc::Global;

/// A component, with where its in ports read from, and which of its out ports root out ports show.
#[derive(Clone, Copy)]
pub struct WiredComponent<'a> {
    pub component: &'a Component,
    pub sources: &'a [PortSource],
    pub taps: &'a [u32],
}

/// The sources of the in ports of each component of a design, and which of its out ports root out
/// ports show.
pub struct Wiring {
    pub sources: ItemList<ItemList<PortSource>>,
    pub taps: ItemList<ItemList<u32>>,
}

impl Drop for Wiring {
    fn drop(self) {
        let Wiring {
            sources: _,
            taps: _,
        } = self;
    }
}

impl Wiring {
    ghost use Rattle.sync_product.specs.proof.ComponentWiring.{IsWired, IsWiring};

    /// The wiring of a design.
    pub fn new(alloc: Global, design: &Design) -> Result<Wiring, NoMemory>
        ensures { IfOk result (IsWiring design.now) }
    {
        let sources = all_sources(alloc, design)?;
        let taps = all_taps(alloc, design)?;
        Ok(Wiring { sources, taps })
    }

    /// A component of the design, by its number.
    pub fn component<'a>(&'a self, design: &'a Design, node: usize) -> WiredComponent<'a>
        requires wiring { IsWiring design.now self.now }
        requires node { node < length design.now.components }
        ensures { IsWired design.now node result }
    {
        WiredComponent {
            component: &design.components()[node],
            sources: self.sources[node].as_slice(),
            taps: self.taps[node].as_slice(),
        }
    }
}
