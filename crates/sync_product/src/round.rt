//! The steps of all components in a round.
ghost use Rattle.std.specs.Prelude.{◌≡◌, OnOk, map};
ghost use Rattle.sync_product.specs.proof.ProductSizes.{part_size, stage_size, part_sizes, stage_sizes};
ghost use Rattle.sync_product.specs.proof.ComponentWiring.{IsWiring};
ghost use Rattle.sync_product.specs.proof.Rounds.{AreStepped, frames_of};

use crate::component_stage::Stage;
use crate::round_inputs::RoundInputs;
use crate::wiring::Wiring;
use pals_base::{ItemList, NoMemory};
use pals_model::Part;

/// Runs the steps of all components, from their frames in the parts of the round before. At Ok the
/// new parts and the rows of the stages are the results of the steps; the sizes stay in every case.
pub fn run_all(
    round: RoundInputs,
    wiring: &Wiring,
    parts: &[Part],
    stages: &mut Vec<Stage>,
    next: &mut ItemList<Part>,
) -> Result<(), NoMemory>
    requires wiring { IsWiring round.design.now wiring.now }
    requires parts { map part_size parts.now ≡ part_sizes round.design.now }
    requires stages { map stage_size stages.old.items ≡ stage_sizes round.design.now }
    requires next { map part_size next.old ≡ part_sizes round.design.now }
    ensures stepped { OnOk result (AreStepped round.entry (frames_of parts.now) next.new stages.new.items) }
    ensures parts { map part_size next.new ≡ map part_size next.old }
    ensures stages { map stage_size stages.new.items ≡ map stage_size stages.old.items }
{
    for node in 0..round.design.components().len() {
        let wired = wiring.component(round.design, node);
        stages[node].run(wired, round, &parts[node].frame, &mut next[node])?;
    }
    Ok(())
}
