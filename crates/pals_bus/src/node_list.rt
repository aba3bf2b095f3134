//! The nodes of a run, with their targets.
ghost use Rattle.std.specs.Prelude.{◌≡◌, ◌<◌, length, map, OnOk, OnErr, IfOk, IfErr, slice_index_or, slice_set};
ghost use Rattle.bus_machine.specs.NodeEvents.{arrived, received};
ghost use Rattle.pals_node.specs.proof.Answers.{Starts, StartEnds, Steps, StepEnds, FinishesWith, FinishesHere};
ghost use Rattle.pals_node.specs.proof.Answers.{NoneRuns, Sends, SendEnds};
ghost use Rattle.pals_node.specs.proof.NodeAndJobValues.{with_state};
ghost use Rattle.pals_bus.specs.proof.NodeLists.{node_of, target_of_node};

use crate::target_list::TargetList;
use pals_base::{ItemList, Nanos, NoMemory, PortValue, Tuple};
use pals_node::{Done, FinishEnd, Finished, Job, Node, SendEnd, StartEnd, StepEnd};
use pals_runs::Arrived;
use std::alloc::Global;
use std::marker::Model;
use std::ops::Index;

/// The nodes of a run, in order, and their targets. Contracts see them as a list.
pub struct NodeList {
    nodes: ItemList<Node>,
    targets: TargetList,
}

impl Drop for NodeList {
    fn drop(self) {
        let NodeList {
            nodes: _,
            targets: _,
        } = self;
    }
}

impl Model for NodeList {
    ghost use Rattle.std.specs.Prelude.{List};
    ghost use Rattle.pals_node.specs.proof.NodeAndJobValues.{NodeValue};

    ghost Value = { List NodeValue };

    ghost use Rattle.pals_bus.specs.proof.Codes.{nodes_code};

    ghost coded = { nodes_code };

    ghost view = { λ list. list.nodes };

    ghost use Rattle.std.specs.Prelude.{◌≡◌, map};
    ghost use Rattle.pals_bus.specs.proof.NodeLists.{target_of_node};

    ghost invariant = { λ list. list.targets ≡ map target_of_node list.nodes };
}

impl NodeList {
    /// These nodes.
    pub fn new(alloc: Global, nodes: ItemList<Node>) -> Result<NodeList, NoMemory>
        ensures { IfOk result (λ list. list ≡ nodes) }
    {
        let targets = TargetList::new(targets_of(alloc, nodes.as_slice())?);
        Ok(NodeList { nodes, targets })
    }

    /// How many nodes there are.
    pub fn len(&self) -> usize
        ensures { result ≡ length self.now }
    {
        self.nodes.len()
    }

    /// The nodes as a slice.
    pub fn as_slice(&self) -> &[Node]
        ensures { result.now ≡ self.now }
    {
        self.nodes.as_slice()
    }

    /// The target of each node.
    pub fn targets(&self) -> &TargetList
        ensures { result.now ≡ map target_of_node self.now }
    {
        &self.targets
    }

    /// A node starts its next round.
    pub fn start(
        &mut self,
        node: usize,
        env: &[PortValue],
        reading: Option<Nanos>,
    ) -> Result<Job, StartEnd>
        requires { node < length self.old }
        ensures ok { IfOk result (λ job. Starts (node_of self.old node) env.now reading (node_of self.new node) job) }
        ensures others { self.new ≡ slice_set self.old node (node_of self.new node) }
        ensures same { OnErr result (self.new ≡ self.old) }
        ensures cause { IfErr result (StartEnds (node_of self.old node) reading) }
    {
        let answer = self.nodes[node].start(env, reading);
        keep_target(&mut self.targets, &self.nodes, node);
        answer
    }

    /// A node starts the next step of its round.
    pub fn step(&mut self, node: usize, reading: Option<Nanos>) -> Result<Job, StepEnd>
        requires { node < length self.old }
        ensures ok { IfOk result (λ job. Steps (node_of self.old node) reading (node_of self.new node) job) }
        ensures others { self.new ≡ slice_set self.old node (node_of self.new node) }
        ensures same { OnErr result (self.new ≡ self.old) }
        ensures cause { IfErr result (StepEnds (node_of self.old node) reading) }
    {
        let answer = self.nodes[node].step(reading);
        keep_target(&mut self.targets, &self.nodes, node);
        answer
    }

    /// A node finishes its outstanding step, with the submitted job or by running the job here.
    pub fn finish(&mut self, node: usize, done: Done) -> Result<Finished, FinishEnd>
        requires { node < length self.old }
        ensures ok { IfOk result (λ how. FinishesWith (node_of self.old node) done (node_of self.new node) how) }
        ensures others { self.new ≡ slice_set self.old node (node_of self.new node) }
        ensures same { OnErr result (self.new ≡ self.old) }
        ensures cause { OnErr result (NoneRuns (node_of self.old node)) }
    {
        let answer = self.nodes[node].finish(done);
        keep_target(&mut self.targets, &self.nodes, node);
        answer
    }

    /// Like `finish`, for a job of the node's own code.
    pub fn finish_own(&mut self, node: usize, done: Done) -> Result<Finished, FinishEnd>
        requires node { node < length self.old }
        requires own { done.code ≡ (node_of self.old node).program.code }
        ensures ok { IfOk result (λ how. FinishesWith (node_of self.old node) done (node_of self.new node) how) }
        ensures others { self.new ≡ slice_set self.old node (node_of self.new node) }
        ensures same { OnErr result (self.new ≡ self.old) }
        ensures cause { OnErr result (NoneRuns (node_of self.old node)) }
    {
        let answer = self.nodes[node].finish_own(done);
        keep_target(&mut self.targets, &self.nodes, node);
        answer
    }

    /// A node finishes the step that is out by running its job here.
    pub fn finish_here(&mut self, node: usize) -> Result<(), FinishEnd>
        requires { node < length self.old }
        ensures ok { OnOk result (FinishesHere (node_of self.old node) (node_of self.new node)) }
        ensures others { self.new ≡ slice_set self.old node (node_of self.new node) }
        ensures same { OnErr result (self.new ≡ self.old) }
        ensures cause { OnErr result (NoneRuns (node_of self.old node)) }
    {
        let answer = self.nodes[node].finish_here();
        keep_target(&mut self.targets, &self.nodes, node);
        answer
    }

    /// A node sends its round, and gives the messages of all links from it.
    pub fn send(&mut self, node: usize, reading: Option<Nanos>) -> Result<ItemList<Tuple>, SendEnd>
        requires { node < length self.old }
        ensures ok { IfOk result (λ messages. Sends (node_of self.old node) reading (node_of self.new node) messages) }
        ensures others { self.new ≡ slice_set self.old node (node_of self.new node) }
        ensures same { OnErr result (self.new ≡ self.old) }
        ensures cause { IfErr result (SendEnds (node_of self.old node) reading) }
    {
        let answer = self.nodes[node].send(reading);
        keep_target(&mut self.targets, &self.nodes, node);
        answer
    }

    /// An in port of a node receives a message of a round. Its target stays.
    pub fn arrive(&mut self, node: usize, port: u32, round: u32, tuple: Tuple) -> Arrived
        requires node { node < length self.old }
        requires port { port < length (node_of self.old node).state.slots }
        ensures answer { result ≡ arrived (node_of self.old node).state port round }
        ensures others { self.new ≡ slice_set self.old node
            (with_state (node_of self.old node) (received (node_of self.old node).state port round tuple)) }
    {
        self.nodes[node].arrive(port, round, tuple)
    }
}

impl Index<usize> for NodeList {
    type Output = Node;

    ghost can_index = { λ list at. at < length list };

    ghost index_gives = { λ list at item. item ≡ slice_index_or list at item };

    fn index(&self, at: usize) -> &Node
        requires { at < length self.now }
        ensures { result.now ≡ slice_index_or self.now at result.now }
    {
        &self.nodes[at]
    }
}

// The target of each node.
fn targets_of(alloc: Global, nodes: &[Node]) -> Result<ItemList<Option<Nanos>>, NoMemory>
    ensures { IfOk result (λ targets. targets ≡ map target_of_node nodes.now) }
{
    let mut targets = ItemList::new(alloc);
    for node in nodes {
        targets.push(node.target())?;
    }
    Ok(targets)
}

// The target of a node that has changed.
fn keep_target(targets: &mut TargetList, nodes: &ItemList<Node>, node: usize)
    requires node { node < length nodes.now }
    requires target { node < length targets.old }
    ensures { targets.new ≡ slice_set targets.old node (target_of_node (node_of nodes.now node)) }
{
    targets.set(node, nodes[node].target());
}
