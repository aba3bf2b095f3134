//! Makes the steps of all components in a round: a plant and its controller hand in hand, each other component by
//! itself.
ghost use Rattle.std.specs.Prelude.{◌≡◌, ◌<◌, OnOk, length, map};
ghost use Rattle.sync_product.specs.proof.ProductSizes.{part_size, part_sizes, stage_size, stage_sizes};
ghost use Rattle.sync_product.specs.proof.Rounds.{frames_of};
ghost use Rattle.plant_fuse.specs.FusedComposition.{IsPair, ArePairs};
ghost use Rattle.plant_fuse.specs.proof.DesignTables.{AreTables};
ghost use Rattle.plant_fuse.specs.proof.RoundWork.{IsPaired, IsRunAlone, AreAlone, IsRun, AreRun, StayBeside};

use crate::design_tables::Tables;
use crate::pair_steps::{FusedPair, PairedComponent, make_pair_steps};
use crate::taken_stages_and_parts::{put_stage, take_part, take_stage};
use pals_base::{ItemList, NoMemory, NodeNo};
use pals_model::{Design, Part};
use pals_runs::Pair;
use sync_product::component_stage::Stage;
use sync_product::round_inputs::RoundInputs;

/// Runs the steps of all components, from their frames in the parts of the round before: components in no
/// pair by themselves, and a plant and its controller in alternation. At Ok the new parts and the rows of
/// the stages are the results of the steps; the sizes stay in every case.
pub fn run_all(
    round: RoundInputs,
    tables: &Tables,
    parts: &[Part],
    stages: &mut Vec<Stage>,
    next: &mut ItemList<Part>,
) -> Result<(), NoMemory>
    requires tables { AreTables round.design.now tables.now.pairs tables.now }
    requires pairs { ArePairs round.design.now tables.now.pairs }
    requires parts { map part_size parts.now ≡ part_sizes round.design.now }
    requires stages { map stage_size stages.old.items ≡ stage_sizes round.design.now }
    requires next { map part_size next.old ≡ part_sizes round.design.now }
    ensures run { OnOk result (AreRun round.entry tables.now.pairs (frames_of parts.now) next.new stages.new.items) }
    ensures parts { map part_size next.new ≡ map part_size next.old }
    ensures stages { map stage_size stages.new.items ≡ map stage_size stages.old.items }
{
    run_alone(round, tables, parts, stages, next)?;
    for pair in tables.pairs.as_slice() {
        run_pair(round, tables, pair, parts, stages, next)?;
    }
    Ok(())
}

// Runs the steps of the components in no pair.
fn run_alone(
    round: RoundInputs,
    tables: &Tables,
    parts: &[Part],
    stages: &mut Vec<Stage>,
    next: &mut ItemList<Part>,
) -> Result<(), NoMemory>
    requires tables { AreTables round.design.now tables.now.pairs tables.now }
    requires parts { map part_size parts.now ≡ part_sizes round.design.now }
    requires stages { map stage_size stages.old.items ≡ stage_sizes round.design.now }
    requires next { map part_size next.old ≡ part_sizes round.design.now }
    ensures run { OnOk result (AreAlone round.entry tables.now.pairs (frames_of parts.now) next.new stages.new.items) }
    ensures parts { map part_size next.new ≡ map part_size next.old }
    ensures stages { map stage_size stages.new.items ≡ map stage_size stages.old.items }
{
    for node in 0..round.design.components().len() {
        if tables.partners[node].is_some() {
            continue;
        }
        run_one(round, tables, node, parts, stages, next)?;
    }
    Ok(())
}

// Makes the steps of a component by itself.
fn run_one(
    round: RoundInputs,
    tables: &Tables,
    node: usize,
    parts: &[Part],
    stages: &mut Vec<Stage>,
    next: &mut ItemList<Part>,
) -> Result<(), NoMemory>
    requires tables { AreTables round.design.now tables.now.pairs tables.now }
    requires node { node < length round.design.now.components }
    requires parts { map part_size parts.now ≡ part_sizes round.design.now }
    requires stages { map stage_size stages.old.items ≡ stage_sizes round.design.now }
    requires next { map part_size next.old ≡ part_sizes round.design.now }
    ensures run { OnOk result (IsRunAlone round.entry (frames_of parts.now) node next.old next.new stages.old.items
        stages.new.items) }
    ensures parts { map part_size next.new ≡ map part_size next.old }
    ensures stages { map stage_size stages.new.items ≡ map stage_size stages.old.items }
{
    let wired = tables.wiring.component(round.design, node);
    stages[node].run(wired, round, &parts[node].frame, &mut next[node])?;
    Ok(())
}

// Makes the steps of a plant and its controller.
fn run_pair(
    round: RoundInputs,
    tables: &Tables,
    pair: &Pair,
    parts: &[Part],
    stages: &mut Vec<Stage>,
    next: &mut ItemList<Part>,
) -> Result<(), NoMemory>
    requires tables { AreTables round.design.now tables.now.pairs tables.now }
    requires pair { IsPair round.design.now pair.now }
    requires parts { map part_size parts.now ≡ part_sizes round.design.now }
    requires stages { map stage_size stages.old.items ≡ stage_sizes round.design.now }
    requires next { map part_size next.old ≡ part_sizes round.design.now }
    ensures run { OnOk result (IsRun round.entry (frames_of parts.now) next.new stages.new.items pair.now) }
    ensures others { OnOk result (StayBeside pair.now.plant.0 pair.now.controller.0 next.old next.new stages.old.items
        stages.new.items) }
    ensures parts { map part_size next.new ≡ map part_size next.old }
    ensures stages { map stage_size stages.new.items ≡ map stage_size stages.old.items }
{
    let (plant, controller) = (pair.plant.0 as usize, pair.controller.0 as usize);
    let fused = FusedPair {
        plant: paired(round.design, tables, parts, pair.plant, pair.controller),
        controller: paired(round.design, tables, parts, pair.controller, pair.plant),
    };
    // What the plant has is taken out meanwhile, so that both sides can be changed.
    let mut stage = take_stage(stages, plant);
    let mut part = take_part(stage.alloc, next, plant);
    let run = make_pair_steps(
        round,
        fused,
        &mut stage,
        &mut stages[controller],
        &mut part,
        &mut next[controller],
    );
    put_stage(stages, plant, stage);
    next.set(plant, part);
    run
}

// A component of a pair, with its frame in the parts of the round before.
fn paired<'a>(
    design: &'a Design,
    tables: &'a Tables,
    parts: &'a [Part],
    node: NodeNo,
    partner: NodeNo,
) -> PairedComponent<'a>
    requires tables { AreTables design.now tables.now.pairs tables.now }
    requires parts { map part_size parts.now ≡ part_sizes design.now }
    requires node { node.0 < length design.now.components }
    ensures { IsPaired design.now parts.now node.0 partner.0 result }
{
    let at = node.0 as usize;
    PairedComponent {
        wired: tables.wiring.component(design, at),
        partner: partner.0,
        from: &parts[at].frame,
    }
}
