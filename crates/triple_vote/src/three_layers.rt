//! The three layers together: their opening, their rounds, and what the replicas of each receive.
ghost use Rattle.std.specs.Prelude.{◌≡◌, All, IfOk, OnOk, length, map, replicate};
ghost use Rattle.pals_model.specs.ComponentInputs.{all_sources};
ghost use Rattle.pals_model.specs.Composition.{opening};
ghost use Rattle.sync_product.specs.proof.ProductSizes.{stage_size, stage_sizes};
ghost use Rattle.triple_vote.specs.proof.FaultTables.{AreFirst};
ghost use Rattle.triple_vote.specs.proof.VoteLaws.{IsFault};
ghost use Rattle.triple_vote.specs.proof.ThreeLayers.{AreThree, AreOpened, AreMade, StayPut, HasReceivedSizes};
ghost use Rattle.triple_vote.specs.proof.ThreeLayers.{AllReceived};
ghost use Rattle.triple_vote.specs.proof.ThreeLayers.{AreSwapped};

use crate::fault_table::FaultTable;
use crate::received_messages::receive_all;
use crate::replica_layer::Layer;
use pals_base::{ItemList, NoMemory, PortValue, Tuple};
use pals_model::{Design, PortSource};
use std::alloc::Global;
use sync_product::component_stage::Stage;
use sync_product::opening::opening_messages;
use sync_product::round_inputs::RoundInputs;

/// Three layers before the first round: one replica of each component, and two more of each marked
/// component.
pub fn opening_layers(
    alloc: Global,
    design: &Design,
    replicated: &[bool],
) -> Result<Vec<Layer>, NoMemory>
    requires { length replicated.now ≡ length design.now.components }
    ensures { IfOk result (λ layers. AreOpened design.now replicated.now layers.items) }
{
    let all = vec![in alloc; true; design.components().len()]?;
    let first = Layer::new(alloc, design, ItemList::from_vec(all))?;
    let marked = ItemList::from_slice(alloc, replicated)?;
    let second = Layer::new(alloc, design, marked)?;
    let marked = ItemList::from_slice(alloc, replicated)?;
    let third = Layer::new(alloc, design, marked)?;
    Ok(vec![in alloc; first, second, third]?)
}

/// An absent message on each link, for three replicas.
pub fn opening_received(alloc: Global, design: &Design) -> Result<Vec<ItemList<Tuple>>, NoMemory>
    ensures { IfOk result (λ received_messages. received_messages.items ≡ replicate 3 (opening design.now).messages) }
{
    let first = opening_messages(alloc, design)?;
    let second = opening_messages(alloc, design)?;
    let third = opening_messages(alloc, design)?;
    Ok(vec![in alloc; first, second, third]?)
}

/// Computes a round in each layer. At Ok each layer has computed it from the received messages of its
/// replicas; their state is unchanged in every case.
pub fn run_each(
    design: &Design,
    values: &[PortValue],
    received_messages: &[ItemList<Tuple>],
    sources: &[ItemList<PortSource>],
    stages: &mut Vec<Stage>,
    layers: &mut Vec<Layer>,
) -> Result<(), NoMemory>
    requires received_messages { length received_messages.now ≡ 3 }
    requires sources { sources.now ≡ all_sources design.now }
    requires stages { map stage_size stages.old.items ≡ stage_sizes design.now }
    requires layers { AreThree design.now layers.old.items }
    ensures made { OnOk result (AreMade design.now values.now received_messages.now layers.new.items) }
    ensures stay { StayPut layers.old.items layers.new.items }
    ensures layers { AreThree design.now layers.new.items }
    ensures stages { map stage_size stages.new.items ≡ map stage_size stages.old.items }
{
    for at in 0..layers.len() {
        let round = RoundInputs {
            design,
            values,
            messages: received_messages[at].as_slice(),
        };
        layers[at].run(round, sources, stages)?;
    }
    Ok(())
}

/// Writes what the replicas of each layer receive.
pub fn receive_each(
    design: &Design,
    replicated: &[bool],
    table: FaultTable,
    layers: &[Layer],
    received_messages: &mut Vec<ItemList<Tuple>>,
)
    requires layers { AreThree design.now layers.now }
    requires faults { All (IsFault design.now) table.faults.now }
    requires places { AreFirst table.faults.now (length design.now.links) table.places.now }
    requires received_messages { HasReceivedSizes design.now received_messages.old.items }
    ensures received { AllReceived design.now replicated.now table.entry.faults.now layers.now
        received_messages.new.items }
    ensures received_messages { HasReceivedSizes design.now received_messages.new.items }
{
    for at in 0..received_messages.len() {
        receive_all(
            design,
            replicated,
            table,
            layers,
            at,
            &mut received_messages[at],
        );
    }
}

/// Goes over to the frames that the round made.
pub fn swap_each(layers: &mut Vec<Layer>)
    ensures { AreSwapped layers.old.items layers.new.items }
{
    for at in 0..layers.len() {
        layers[at].turn();
    }
}
