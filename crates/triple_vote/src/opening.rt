//! The opening frames of replicas, and the absent tuples of root out ports.
ghost use Rattle.std.specs.Prelude.{◌≡◌, IfOk, map, replicate};
ghost use Rattle.pals_base.specs.declared.basic_types.PortValue.TheVariants.{Absent};
ghost use Rattle.pals_model.specs.PortKindsAndRates.{rate_of};
ghost use Rattle.triple_vote.specs.proof.ReplicaLayers.{opening_part};

use pals_base::tuples::absent;
use pals_base::{Frame, ItemList, NoMemory, Tuple};
use pals_model::{Design, Part};
use std::alloc::Global;

/// The initial frame of each component, with no tuples.
pub fn opening_frames(alloc: Global, design: &Design) -> Result<ItemList<Part>, NoMemory>
    ensures { IfOk result (λ parts. parts ≡ map opening_part design.now.components) }
{
    let mut parts = ItemList::new(alloc);
    for component in design.components() {
        parts.push(Part {
            frame: Frame::initial(alloc, &component.behaviour)?,
            outs: ItemList::new(alloc),
        })?;
    }
    Ok(parts)
}

/// An absent tuple for each root out port.
pub fn opening_shown(alloc: Global, design: &Design) -> Result<ItemList<Tuple>, NoMemory>
    ensures { IfOk result (λ shown. shown ≡ map
        (λ tap. replicate (rate_of design.now tap.source.0) Absent) design.now.taps) }
{
    let mut shown = ItemList::new(alloc);
    for tap in design.taps() {
        let rate = design.parts().rate(tap.source);
        shown.push(absent(alloc, rate as usize)?)?;
    }
    Ok(shown)
}
