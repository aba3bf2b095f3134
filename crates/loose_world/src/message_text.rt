//! The messages that the nodes of a bus have sent.
ghost use Rattle.std.specs.Prelude.{◌≡◌, ◌<◌, ◌++◌, length, IfOk, OnOk, OnErr};
ghost use Rattle.pals_model.specs.RoundTexts.{text_of};
ghost use Rattle.pals_report.specs.proof.TextPrefixes.{BeginsWith};
ghost use Rattle.loose_world.specs.SentLines.{AreOutLinks, message_lines, sent_lines};

use pals_base::{ItemList, LinkNo, NoMemory, NodeNo};
use pals_bus::Bus;
use pals_model::Design;
use pals_model::outgoing_links::links_from;
use pals_report::{add_sent, whole_or_none};
use std::alloc::Global;
use std::marker::Model;

/// The links from each node of a design, in their order. Contracts see their numbers, node by node.
#[derive(Drop)]
pub struct OutLinks {
    nodes: ItemList<ItemList<LinkNo>>,
}

impl Model for OutLinks {
    ghost use Rattle.std.specs.Prelude.{List};
    ghost use Rattle.pals_base.specs.declared.basic_types.LinkNo.{LinkNo};

    ghost Value = { List (List LinkNo) };

    ghost view = { λ links. links.nodes };
}

impl OutLinks {
    /// The links from each node of a design.
    pub fn new(alloc: Global, design: &Design) -> Result<OutLinks, NoMemory>
        ensures { IfOk result (λ links. AreOutLinks design.now links) }
    {
        let mut nodes = ItemList::new(alloc);
        for node in 0..design.components().len() {
            nodes.push(links_from(alloc, design, NodeNo(node as u32))?)?;
        }
        Ok(OutLinks { nodes })
    }

    /// Adds a line for each message that a node has just sent, in order of the links. If there is
    /// not enough memory, nothing is added.
    pub fn add_messages(&self, out: &mut Vec<u8>, bus: &Bus, node: NodeNo) -> Result<(), NoMemory>
        requires links { AreOutLinks bus.now.run.design self.now }
        requires node { node.0 < length bus.now.run.design.components }
        ensures ok { OnOk result (out.new.items ≡ out.old.items ++ text_of (sent_lines bus.now node.0)) }
        ensures err { OnErr result (out.new.items ≡ out.old.items) }
    {
        let start = out.len();
        let written = self.add_each(out, bus, node);
        whole_or_none(out, start, written)
    }

    // Adds the lines one by one.
    fn add_each(&self, out: &mut Vec<u8>, bus: &Bus, node: NodeNo) -> Result<(), NoMemory>
        requires links { AreOutLinks bus.now.run.design self.now }
        requires node { node.0 < length bus.now.run.design.components }
        ensures ok { OnOk result (out.new.items ≡ out.old.items ++ text_of (sent_lines bus.now node.0)) }
        ensures err { OnErr result (BeginsWith out.new.items out.old.items) }
    {
        let round = bus.count(node).saturating_sub(1);
        for link in self.nodes[node.0 as usize].as_slice() {
            add_message(out, bus, *link, round)?;
        }
        Ok(())
    }
}

// Adds the line of the message of a round that is in flight on a link, if there is one. If there is
// not enough memory, nothing is added.
fn add_message(out: &mut Vec<u8>, bus: &Bus, link: LinkNo, round: u32) -> Result<(), NoMemory>
    requires { link.0 < length bus.now.run.design.links }
    ensures ok { OnOk result (out.new.items ≡ out.old.items ++ text_of (message_lines bus.now round link.0)) }
    ensures err { OnErr result (out.new.items ≡ out.old.items) }
{
    match bus.in_flight(link, round) {
        None => Ok(()),
        Some(copy) => add_sent(out, bus.design(), link, round, copy.tuple.as_slice()),
    }
}
