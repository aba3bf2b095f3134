//! The connection chains of an instance model. Numbers count in the order of the text, from 0.

use pals_base::{ItemList, NodeNo, Text};

/// A connection chain: consecutive connections from the first port of a message to its last port.
pub struct Chain {
    pub from: ChainEnd,
    pub to: ChainEnd,
    /// The connection whose properties apply to the chain: the one between two subcomponents or, for a feed or
    /// a tap, the one in the root's implementation.
    pub carrier: ConnectionAt,
}

impl Drop for Chain {
    fn drop(self) {
        let Chain {
            from: _,
            to: _,
            carrier: _,
        } = self;
    }
}

/// The first or last port of a connection chain.
#[derive(Drop)]
pub enum ChainEnd {
    /// A port of a thread, by its number among the thread's in ports or out ports.
    Thread { node: NodeNo, port: u32 },
    /// A port of the root.
    Root { name: Text },
}

/// A connection: the number of the declaration that contains it, and its own number there.
#[derive(Clone, Copy)]
pub struct ConnectionAt {
    pub declaration: usize,
    pub connection: usize,
}
