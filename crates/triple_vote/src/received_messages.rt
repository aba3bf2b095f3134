//! The message that each replica receives on a link: the vote of three replicas, or what a source without replicas
//! sent.
ghost use Rattle.std.specs.Prelude.{◌≡◌, ◌<◌, ◌^◌, All, Option, length, slice_index_or};
ghost use Rattle.sync_product.specs.proof.ProductSizes.{message_sizes};
ghost use Rattle.triple_vote.specs.VotedComposition.{fault_or};
ghost use Rattle.triple_vote.specs.proof.FaultTables.{fault_at, AreFirstOn, AreFirst};
ghost use Rattle.triple_vote.specs.proof.ReplicaLayers.{lengths};
ghost use Rattle.triple_vote.specs.proof.VoteLaws.{IsFault};
ghost use Rattle.triple_vote.specs.proof.ThreeLayers.{AreThree, sent_in, tuple_of, received_of, AreReceived, AreOfSize};
ghost use Rattle.triple_vote.specs.proof.ThreeLayers.{FaultsFit};

use crate::fault_table::{FaultTable, place};
use crate::layer_rounds::{has_replica, tuple_at};
use crate::replica_layer::Layer;
use crate::votes::vote_into;
use pals_base::{ItemList, PortValue, Tuple};
use pals_model::Design;

// What a replica sends to a reader: the tuple of the first fault at their place, where the table of first
// faults has one, and else its own.
fn sent_to<'a>(table: FaultTable<'a>, place: usize, own: &'a [PortValue]) -> &'a [PortValue]
    ensures { result.now ≡ fault_or (fault_at table.entry.faults.now
        (slice_index_or table.entry.places.now place Option.None)) own.entry.now }
{
    let Some(Some(number)) = table.places.get(place) else {
        return own;
    };
    match table.faults.get(*number) {
        Some(fault) => fault.values.as_slice(),
        None => own,
    }
}

// What the replicas of a number made for a link, nothing past the end.
fn sent_at(layers: &[Layer], replica: usize, number: usize) -> &[PortValue]
    ensures { result.now ≡ tuple_of (sent_in layers.now) replica number }
{
    match layers.get(replica) {
        Some(layer) => tuple_at(layer.sent.as_slice(), number),
        None => &[],
    }
}

// Writes the message that the replica at a place receives on a link: the vote on the messages of three replicas,
// or the message of a source without replicas.
fn receive(
    table: FaultTable,
    layers: &[Layer],
    number: usize,
    three: bool,
    at: usize,
    to: &mut Tuple,
)
    requires number { number < 2 ^ 32 }
    requires at { at < 3 }
    requires sent { AreOfSize (sent_in layers.now) number (length to.old) }
    requires faults { FaultsFit table.faults.now number (length to.old) }
    requires places { AreFirstOn table.faults.now number table.places.now }
    ensures { to.new ≡ received_of three table.entry.faults.now (sent_in layers.now) number at }
{
    let link = number as u32;
    let target = at as u32 + 1;
    let first = sent_at(layers, 0, number);
    if three {
        let second = sent_at(layers, 1, number);
        let third = sent_at(layers, 2, number);
        let x = sent_to(table, place(link, 1, target), first);
        let y = sent_to(table, place(link, 2, target), second);
        let z = sent_to(table, place(link, 3, target), third);
        vote_into(to, x, y, z);
    } else {
        to.copy_from_slice(first);
    }
}

/// Writes the messages that the replicas at a place receive on each link, from the results of all replicas.
pub fn receive_all(
    design: &Design,
    replicated: &[bool],
    table: FaultTable,
    layers: &[Layer],
    at: usize,
    received_messages: &mut ItemList<Tuple>,
)
    requires at { at < 3 }
    requires layers { AreThree design.now layers.now }
    requires faults { All (IsFault design.now) table.faults.now }
    requires places { AreFirst table.faults.now (length design.now.links) table.places.now }
    requires received_messages { lengths received_messages.old ≡ message_sizes design.now }
    ensures received { AreReceived design.now replicated.now table.entry.faults.now layers.now at
        received_messages.new }
    ensures sizes { lengths received_messages.new ≡ message_sizes design.now }
{
    let there = layers[at].there.as_slice();
    for (number, link) in design.links().iter().enumerate() {
        if !has_replica(there, link.target) {
            continue;
        }
        let three = has_replica(replicated, link.source);
        let tuple = &mut received_messages[number];
        receive(table, layers, number, three, at, tuple);
    }
}
