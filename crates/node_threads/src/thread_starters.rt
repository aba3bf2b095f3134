//! Which nodes may have a thread.
ghost use Rattle.std.specs.Prelude.{◌≡◌, ◌==◌, true, not};
ghost use Rattle.std.specs.List.{list_any};

use pals_base::{ItemList, NodeNo};
use std::marker::Model;

/// Tells whether a node may have a thread.
pub trait Starter {
    fn admits(&mut self, node: NodeNo) -> bool;
}

/// Admits all nodes.
#[derive(Clone, Copy)]
pub struct ThreadStarter;

impl Starter for ThreadStarter {
    fn admits(&mut self, _node: NodeNo) -> bool
        ensures { result ≡ true }
    {
        true
    }
}

/// Refuses the nodes of a list. Contracts see it as that list.
#[derive(Drop)]
pub struct FakeStarter {
    refused: ItemList<NodeNo>,
}

impl Model for FakeStarter {
    ghost use Rattle.std.specs.Prelude.{List};
    ghost use Rattle.pals_base.specs.declared.basic_types.NodeNo.{NodeNo};

    ghost Value = { List NodeNo };

    ghost view = { λ starter. starter.refused };
}

impl FakeStarter {
    /// Refuses these nodes, and no others.
    pub fn new(refused: ItemList<NodeNo>) -> FakeStarter
        ensures { result ≡ refused }
    {
        FakeStarter { refused }
    }
}

impl Starter for FakeStarter {
    fn admits(&mut self, node: NodeNo) -> bool
        ensures same { self.new ≡ self.old }
        ensures answer { result ≡ not (list_any (λ refused. refused.0 == node.0) self.old) }
    {
        !self.refused.as_slice().contains(&node)
    }
}
