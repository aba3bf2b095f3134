//! A round of one layer: the steps of its replicas, their messages, and the tuples of their taps.
ghost use Rattle.std.specs.Prelude.{◌≡◌, [], OnOk, length, map, slice_index_or};
ghost use Rattle.pals_model.specs.ComponentInputs.{all_sources};
ghost use Rattle.sync_product.specs.proof.ProductSizes.{part_size, stage_size, stage_sizes, message_sizes};
ghost use Rattle.sync_product.specs.proof.Rounds.{frames_of};
ghost use Rattle.triple_vote.specs.proof.ReplicaLayers.{lengths, frame_sizes, tap_sizes, has_replica, AreRun, AreSent};
ghost use Rattle.triple_vote.specs.proof.ReplicaLayers.{AreWhole};

use pals_base::{ItemList, NoMemory, NodeNo, PortValue, Tuple};
use pals_model::{Design, Part, PortSource};
use sync_product::component_stage::Stage;
use sync_product::round_inputs::RoundInputs;
use sync_product::tuple_columns::write_port_tuple;
use sync_product::wiring::WiredComponent;

/// The entry of a table for a component; false past its end.
pub fn has_replica(there: &[bool], node: NodeNo) -> bool
    ensures { result ≡ has_replica there.now node.0 }
{
    let at = node.0 as usize;
    if at < there.len() { there[at] } else { false }
}

/// The tuple at a place, nothing past the end.
pub fn tuple_at(tuples: &[Tuple], at: usize) -> &[PortValue]
    ensures { result.now ≡ slice_index_or tuples.now at [] }
{
    match tuples.get(at) {
        Some(tuple) => tuple.as_slice(),
        None => &[],
    }
}

/// Makes the steps of all components that are there, from their frames after the round before. The
/// sizes stay in every case.
pub fn run_all(
    round: RoundInputs,
    sources: &[ItemList<PortSource>],
    there: &[bool],
    parts: &[Part],
    stages: &mut Vec<Stage>,
    next: &mut ItemList<Part>,
) -> Result<(), NoMemory>
    requires sources { sources.now ≡ all_sources round.design.now }
    requires there { length there.now ≡ length round.design.now.components }
    requires parts { map part_size parts.now ≡ frame_sizes round.design.now }
    requires stages { map stage_size stages.old.items ≡ stage_sizes round.design.now }
    requires next { map part_size next.old ≡ frame_sizes round.design.now }
    ensures run { let made = round.entry in OnOk result
        (AreRun made.design.now made.values.now made.messages.now there.now (frames_of parts.now) next.new
        stages.new.items) }
    ensures next { map part_size next.new ≡ map part_size next.old }
    ensures stages { map stage_size stages.new.items ≡ map stage_size stages.old.items }
{
    for (node, component) in round.design.components().iter().enumerate() {
        if !there[node] {
            continue;
        }
        let wired = WiredComponent {
            component,
            sources: sources[node].as_slice(),
            taps: &[],
        };
        stages[node].run(wired, round, &parts[node].frame, &mut next[node])?;
    }
    Ok(())
}

/// Writes the message of each link whose source is there.
pub fn send_all(design: &Design, there: &[bool], stages: &[Stage], sent: &mut ItemList<Tuple>)
    requires stages { map stage_size stages.now ≡ stage_sizes design.now }
    requires sent { lengths sent.old ≡ message_sizes design.now }
    ensures sent { AreSent design.now there.now stages.now sent.new }
    ensures sizes { lengths sent.new ≡ message_sizes design.now }
{
    for (number, link) in design.links().iter().enumerate() {
        if !has_replica(there, link.source) {
            continue;
        }
        let stage = &stages[link.source.0 as usize];
        let message = &mut sent[number];
        write_port_tuple(
            message,
            stage.rows.as_slice(),
            link.out_port as usize,
            stage.sent,
        );
    }
}

/// Writes the whole tuple of each root out port whose source is there.
pub fn show_all(design: &Design, there: &[bool], stages: &[Stage], shown: &mut ItemList<Tuple>)
    requires stages { map stage_size stages.now ≡ stage_sizes design.now }
    requires shown { lengths shown.old ≡ tap_sizes design.now }
    ensures shown { AreWhole design.now there.now stages.now shown.new }
    ensures sizes { lengths shown.new ≡ tap_sizes design.now }
{
    for (number, tap) in design.taps().iter().enumerate() {
        if !has_replica(there, tap.source) {
            continue;
        }
        let rows = stages[tap.source.0 as usize].rows.as_slice();
        let tuple = &mut shown[number];
        write_port_tuple(tuple, rows, tap.out_port as usize, rows.len());
    }
}
