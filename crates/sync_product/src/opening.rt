//! What a product begins with: a stage for each component, absent messages, and the parts before the first round.
ghost use Rattle.std.specs.Prelude.{◌≡◌, IfOk, map, replicate};
ghost use Rattle.behaviour_sem.specs.proof.GroupedTransitions.{sources_of};
ghost use Rattle.pals_base.specs.declared.basic_types.PortValue.TheVariants.{Absent};
ghost use Rattle.pals_model.specs.PortKindsAndRates.{rate_of};
ghost use Rattle.sync_product.specs.proof.ProductStates.{opening_parts};
ghost use Rattle.sync_product.specs.proof.ProductSizes.{stage_size, stage_sizes};
ghost use Rattle.sync_product.specs.proof.ComponentWiring.{all_taps};

use crate::component_stage::Stage;
use behaviour_sem::TransitionGroups;
use pals_base::tuples::absent;
use pals_base::{Behaviour, Frame, ItemList, NoMemory, TryClone, Tuple};
use pals_model::{Design, Part};
use std::alloc::Global;

// Returns the transitions of a behaviour by state, shared with a stage that has the same.
fn shared_groups(
    alloc: Global,
    stages: &[Stage],
    behaviour: &Behaviour,
) -> Result<TransitionGroups, NoMemory>
    ensures { IfOk result (λ groups. groups ≡ sources_of behaviour.now.transitions) }
{
    for stage in stages {
        if stage.groups.fits(behaviour) {
            return stage.groups.try_clone(alloc);
        }
    }
    TransitionGroups::new(alloc, behaviour)
}

/// Makes room for the steps of each component. Components whose transitions leave the same states
/// share one table of them, so the memory does not grow with components times transitions.
pub fn stages(alloc: Global, design: &Design) -> Result<Vec<Stage>, NoMemory>
    ensures { IfOk result (λ stages. map stage_size stages.items ≡ stage_sizes design.now) }
{
    let gamma = design.gamma();
    let period = design.period();
    let mut stages = Vec::new(alloc);
    for component in design.components() {
        let sent = gamma.sent_steps(period, component.rate);
        let groups = shared_groups(alloc, stages.as_slice(), &component.behaviour)?;
        stages.push(Stage::new(alloc, component, groups, sent as usize)?)?;
    }
    Ok(stages)
}

/// An absent message on each link.
pub fn opening_messages(alloc: Global, design: &Design) -> Result<ItemList<Tuple>, NoMemory>
    ensures { IfOk result (λ messages. messages
        ≡ map (λ link. replicate (rate_of design.now link.source.0) Absent) design.now.links) }
{
    let mut messages = ItemList::new(alloc);
    for link in design.links() {
        let rate = design.parts().rate(link.source);
        messages.push(absent(alloc, rate as usize)?)?;
    }
    Ok(messages)
}

// An absent tuple for each of these ports.
fn absent_each(alloc: Global, ports: &[u32], rate: u32) -> Result<ItemList<Tuple>, NoMemory>
    ensures { IfOk result (λ tuples. tuples ≡ map (λ _. replicate rate Absent) ports.now) }
{
    let mut tuples = ItemList::new(alloc);
    for _port in ports {
        tuples.push(absent(alloc, rate as usize)?)?;
    }
    Ok(tuples)
}

/// The parts before the first round, for these taps of each component.
pub fn opening_parts(
    alloc: Global,
    design: &Design,
    taps: &[ItemList<u32>],
) -> Result<ItemList<Part>, NoMemory>
    requires { taps.now ≡ all_taps design.now }
    ensures { IfOk result (λ parts. parts ≡ opening_parts design.now) }
{
    let mut parts = ItemList::new(alloc);
    for (node, component) in design.components().iter().enumerate() {
        parts.push(Part {
            frame: Frame::initial(alloc, &component.behaviour)?,
            outs: absent_each(alloc, taps[node].as_slice(), component.rate)?,
        })?;
    }
    Ok(parts)
}
