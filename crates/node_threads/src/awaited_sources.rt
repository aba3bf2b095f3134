//! What a node with a list waits for before a start.
ghost use Rattle.std.specs.Prelude.{◌≡◌, ◌<◌, ◌≤◌, length, false, IsTrue};
ghost use Rattle.bus_machine.specs.BusStates.{node_at};
ghost use Rattle.bus_machine.specs.Plans.{link_at};
ghost use Rattle.bus_machine.specs.Nodes.{sent_rounds};
ghost use Rattle.node_threads.specs.proof.SharedCourses.{HasSent, IsWaiting, IsAwaitedIn, IsSentOn};

use crate::course::SharedRun;
use crate::node_end::NodeNote;
use pals_base::NodeNo;
use pals_model::Link;
use pals_runs::Phase;

impl SharedRun {
    /// Whether a node with a list, which is to start a round, has to wait for a source.
    pub fn waits_for_source(&self, node: NodeNo) -> bool
        ensures starts { IsTrue result → (node_at self.now.bus.state node.0).phase ≡ Phase.Waiting }
        ensures awaited { result ≡ false → IsWaiting self.now node.0 → IsAwaitedIn self.now node.0 }
    {
        node.0 < self.count()
            && matches!(&self.bus.phase(node), Phase::Waiting)
            && !self.is_awaited(node)
    }

    /// Whether each source of a node has sent the round before the one that it is to start, or has
    /// reached the end of its list. Nodes that meet do not wait in this way.
    pub fn is_awaited(&self, node: NodeNo) -> bool
        requires { node.0 < length self.now.bus.run.design.components }
        ensures { IsTrue result → IsAwaitedIn self.now node.0 }
    {
        if self.bus.meeting() {
            return true;
        }
        for number in 0..self.bus.design().links().len() {
            if !self.is_sent_on(node, number) {
                return false;
            }
        }
        true
    }

    // Whether a link does not go to a node, or its source has sent the round before.
    fn is_sent_on(&self, node: NodeNo, number: usize) -> bool
        requires node { node.0 < length self.now.bus.run.design.components }
        requires link { number < length self.now.bus.run.design.links }
        ensures { IsTrue result → IsSentOn self.now node.0 (link_at self.now.bus.run.design number) }
    {
        let link = self.link(number);
        link.target.0 != node.0 || self.has_sent(link.source, self.bus.count(node))
    }

    // Whether a node has sent this many rounds, or has reached the end of its list.
    fn has_sent(&self, node: NodeNo, rounds: u32) -> bool
        requires { node.0 < length self.now.bus.run.design.components }
        ensures { IsTrue result → HasSent self.now.bus self.now.clocks node.0 rounds }
    {
        match self.notes[node.0 as usize] {
            NodeNote::ClockEnded { target: _ } => true,
            NodeNote::Open | NodeNote::Memory => self.has_counted(node, rounds),
        }
    }

    // Whether a node has sent this many rounds.
    fn has_counted(&self, node: NodeNo, rounds: u32) -> bool
        requires { node.0 < length self.now.bus.run.design.components }
        ensures { IsTrue result → rounds ≤ sent_rounds (node_at self.now.bus.state node.0) }
    {
        let count = self.bus.count(node);
        rounds < count || rounds == count && self.bus.sent(node)
    }

    // A link of the design, whose source is one of its nodes.
    fn link(&self, number: usize) -> &Link
        requires { number < length self.now.bus.run.design.links }
        ensures link { result.now ≡ link_at self.now.bus.run.design number }
        ensures source { result.now.source.0 < length self.now.bus.run.design.components }
    {
        &self.bus.design().links()[number]
    }
}
