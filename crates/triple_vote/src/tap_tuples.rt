//! The tuple that each root out port shows: the vote of three replicas, or that of a source without replicas.
ghost use Rattle.std.specs.Prelude.{◌≡◌, length};
ghost use Rattle.pals_model.specs.DesignRules.{IsDesign};
ghost use Rattle.triple_vote.specs.proof.ReplicaLayers.{lengths, tap_sizes};
ghost use Rattle.triple_vote.specs.proof.ThreeLayers.{AreThree, shown_in, tuple_of, shown_of, AreShown, AreOfSize};

use crate::layer_rounds::{has_replica, tuple_at};
use crate::replica_layer::Layer;
use crate::votes::vote_into;
use pals_base::{ItemList, PortValue, Tuple};
use pals_model::Design;

// What the replicas of a number made for a root out port, nothing past the end.
fn shown_at(layers: &[Layer], replica: usize, number: usize) -> &[PortValue]
    ensures { result.now ≡ tuple_of (shown_in layers.now) replica number }
{
    match layers.get(replica) {
        Some(layer) => tuple_at(layer.shown.as_slice(), number),
        None => &[],
    }
}

// Writes what a root out port shows: the vote of three replicas, or the tuple of a source that is there
// once.
fn show(layers: &[Layer], number: usize, three: bool, to: &mut Tuple)
    requires { AreOfSize (shown_in layers.now) number (length to.old) }
    ensures { to.new ≡ shown_of three (shown_in layers.now) number }
{
    let first = shown_at(layers, 0, number);
    if three {
        let second = shown_at(layers, 1, number);
        let third = shown_at(layers, 2, number);
        vote_into(to, first, second, third);
    } else {
        to.copy_from_slice(first);
    }
}

/// Writes the values of each root out port, from the results of all replicas.
pub fn show_each(
    design: &Design,
    replicated: &[bool],
    layers: &[Layer],
    shown: &mut ItemList<Tuple>,
)
    requires layers { AreThree design.now layers.now }
    requires shown { lengths shown.old ≡ tap_sizes design.now }
    ensures shown { AreShown design.now replicated.now layers.now shown.new }
    ensures sizes { lengths shown.new ≡ tap_sizes design.now }
    ensures rules { IsDesign design.now }
{
    for (number, tap) in design.taps().iter().enumerate() {
        let three = has_replica(replicated, tap.source);
        let tuple = &mut shown[number];
        show(layers, number, three, tuple);
    }
}
