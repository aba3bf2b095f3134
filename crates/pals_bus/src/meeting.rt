//! Nodes that meet.
ghost use Rattle.std.specs.Prelude.{◌≡◌, ◌≢◌, ◌<◌, ◌↔◌, None, length, true};
ghost use Rattle.bus_machine.specs.Plans.{plan_of};
ghost use Rattle.bus_machine.specs.BusStates.{node_at};
ghost use Rattle.bus_machine.specs.ActionsAndTargets.{next_of};
ghost use Rattle.pals_bus.specs.proof.Meeting.{target_in, HasEnded, Meets};

use crate::bus::Bus;
use pals_base::{Nanos, NodeNo};

/// Whether a node may act in virtual time. The reading is in nanoseconds.
#[derive(Clone, Copy, PartialEq)]
pub enum Meet {
    /// It may, at this reading.
    Go { reading: Nanos },
    /// This node has to act first.
    Wait { node: NodeNo },
    /// The run has a stop, or is closed.
    Ended,
}

impl Bus {
    /// The reading that a node waits for, or works at; `None` if it is done. Does not allocate.
    pub fn target(&self, node: NodeNo) -> Option<Nanos>
        requires { node.0 < length self.now.run.design.components }
        ensures { result ≡ target_in self.now node.0 }
    {
        self.fields.nodes.targets().target(node.0 as usize)
    }

    /// Whether a node in virtual time, which has a next action, may act: it may if no other node that is
    /// not done has a smaller target. Does not allocate.
    pub fn meet(&self, node: NodeNo) -> Meet
        requires node { node.0 < length self.now.run.design.components }
        requires meeting { self.now.meeting ≡ true }
        requires rests { next_of (plan_of self.now.run.design node.0) (node_at self.now.state node.0) ≢ None }
        ensures answer { Meets self.now node.0 result }
        ensures ended { (result ≡ Meet.Ended) ↔ HasEnded self.now }
    {
        let f = &self.fields;
        if f.closed || f.stop.is_some() {
            return Meet::Ended;
        }
        let targets = f.nodes.targets();
        let Some(own) = targets.target(node.0 as usize) else {
            unreachable!();
        };
        let first = targets.first();
        if let Some(least) = targets.target(first) {
            if least < own {
                return Meet::Wait {
                    node: NodeNo(first as u32),
                };
            }
        }
        Meet::Go { reading: own }
    }
}
