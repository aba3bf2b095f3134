//! The steps of a plant and its controller, hand in hand.
ghost use Rattle.std.specs.Prelude.{◌≡◌, ◌<◌, ◌≤◌, OnOk, length};
ghost use Rattle.std.specs.Option.{option_copied};
ghost use Rattle.sync_product.specs.proof.ProductSizes.{frame_size, frame_size_of, part_size, stage_size};
ghost use Rattle.sync_product.specs.proof.ProductSizes.{stage_size_of};
ghost use Rattle.plant_fuse.specs.proof.PairSteps.{member_of_pair, from_partner, side_value, side_vector, row_before};
ghost use Rattle.plant_fuse.specs.proof.PairSteps.{AreMade};
ghost use Rattle.plant_fuse.specs.proof.PairSteps.{work, FitsSteps, AreSidesRun};

use pals_base::tuples::place;
use pals_base::{Frame, NoMemory, PortValue, Tuple};
use pals_model::{Link, Part, PortSource};
use sync_product::component_stage::{Stage, write_taps};
use sync_product::round_inputs::{RoundInputs, value_brought};
use sync_product::wiring::WiredComponent;

/// A component of a pair, with the number of its partner, and the frame that it continues from.
#[derive(Clone, Copy)]
pub struct PairedComponent<'a> {
    pub wired: WiredComponent<'a>,
    pub partner: u32,
    pub from: &'a Frame,
}

/// A plant and its controller.
#[derive(Clone, Copy)]
pub struct FusedPair<'a> {
    pub plant: PairedComponent<'a>,
    pub controller: PairedComponent<'a>,
}

/// Runs the steps of a round of a plant and its controller. At Ok the parts and the rows of the stages are
/// the results of the steps; the sizes stay in every case.
pub fn make_pair_steps(
    round: RoundInputs,
    fused: FusedPair,
    plant_stage: &mut Stage,
    controller_stage: &mut Stage,
    plant_part: &mut Part,
    controller_part: &mut Part,
) -> Result<(), NoMemory>
    requires rates { fused.plant.wired.component.now.rate ≡ fused.controller.wired.component.now.rate }
    requires plant { FitsSteps fused.plant plant_stage.old plant_part.old }
    requires controller { FitsSteps fused.controller controller_stage.old controller_part.old }
    ensures run { OnOk result (AreSidesRun round.entry fused.entry.plant fused.entry.controller
        plant_stage.new controller_stage.new plant_part.new controller_part.new) }
    ensures plant_stage { stage_size plant_stage.new ≡ stage_size plant_stage.old }
    ensures controller_stage { stage_size controller_stage.new ≡ stage_size controller_stage.old }
    ensures plant_part { part_size plant_part.new ≡ part_size plant_part.old }
    ensures controller_part { part_size controller_part.new ≡ part_size controller_part.old }
{
    plant_part.frame.copy_from(fused.plant.from);
    controller_part.frame.copy_from(fused.controller.from);
    make_steps(
        round,
        fused,
        plant_stage,
        controller_stage,
        &mut plant_part.frame,
        &mut controller_part.frame,
    )?;
    write_taps(
        &mut plant_part.outs,
        plant_stage.rows.as_slice(),
        fused.plant.wired.taps,
    );
    write_taps(
        &mut controller_part.outs,
        controller_stage.rows.as_slice(),
        fused.controller.wired.taps,
    );
    Ok(())
}

// Makes the steps of both from their frames on, of each number the plant's first.
fn make_steps(
    round: RoundInputs,
    fused: FusedPair,
    plant_stage: &mut Stage,
    controller_stage: &mut Stage,
    plant_frame: &mut Frame,
    controller_frame: &mut Frame,
) -> Result<(), NoMemory>
    requires rates { fused.plant.wired.component.now.rate ≡ fused.controller.wired.component.now.rate }
    requires plant_sources { length fused.plant.wired.sources.now
        ≡ length fused.plant.wired.component.now.behaviour.ins }
    requires controller_sources { length fused.controller.wired.sources.now
        ≡ length fused.controller.wired.component.now.behaviour.ins }
    requires plant_room { stage_size plant_stage.old
        ≡ stage_size_of plant_stage.old.sent fused.plant.wired.component.now }
    requires controller_room { stage_size controller_stage.old
        ≡ stage_size_of controller_stage.old.sent fused.controller.wired.component.now }
    requires plant_size { frame_size plant_frame.old ≡ frame_size_of fused.plant.wired.component.now }
    requires controller_size { frame_size controller_frame.old ≡ frame_size_of fused.controller.wired.component.now }
    ensures made { let pair = fused.entry in OnOk result
        (AreMade round.entry (member_of_pair pair.plant) (member_of_pair pair.controller)
        pair.plant.wired.component.now.rate
        (work plant_frame.old plant_stage.new.rows plant_frame.new)
        (work controller_frame.old controller_stage.new.rows controller_frame.new)) }
    ensures plant_stage { stage_size plant_stage.new ≡ stage_size plant_stage.old }
    ensures controller_stage { stage_size controller_stage.new ≡ stage_size controller_stage.old }
    ensures plant_frame { frame_size plant_frame.new ≡ frame_size plant_frame.old }
    ensures controller_frame { frame_size controller_frame.new ≡ frame_size controller_frame.old }
{
    let plant = fused.plant;
    let controller = fused.controller;
    for step in 0..plant.wired.component.rate as usize {
        let last = row_before(controller_stage.rows.as_slice(), step);
        write_read(&mut plant_stage.inputs, round, plant, step, last);
        plant_stage.make_step(&plant.wired.component.behaviour, step, plant_frame)?;
        let left = plant_stage.rows[step].as_slice();
        write_read(
            &mut controller_stage.inputs,
            round,
            controller,
            step,
            Some(left),
        );
        controller_stage.make_step(
            &controller.wired.component.behaviour,
            step,
            controller_frame,
        )?;
    }
    Ok(())
}

// The row before a step, if there is one.
fn row_before(rows: &[Tuple], step: usize) -> Option<&[PortValue]>
    requires { step ≤ length rows.now }
    ensures { option_copied result ≡ row_before rows.now step }
{
    if step == 0 {
        return None;
    }
    Some(rows[step - 1].as_slice())
}

// Writes what the in ports have in a step, where the partner left this row last.
fn write_read(
    inputs: &mut Tuple,
    round: RoundInputs,
    side: PairedComponent,
    step: usize,
    last: Option<&[PortValue]>,
)
    requires count { length inputs.old ≡ length side.wired.sources.now }
    requires step { step < side.wired.component.now.rate }
    ensures inputs { inputs.new ≡ side_vector round.entry (member_of_pair side.entry) step (option_copied last.entry) }
    ensures len { length inputs.new ≡ length inputs.old }
{
    for at in 0..side.wired.sources.len() {
        inputs.set(
            at,
            place_read(round, side, side.wired.sources[at], step, last),
        );
    }
}

// What an in port has in a step: on a link from the partner what that left last, else what the round
// brings.
fn place_read(
    round: RoundInputs,
    side: PairedComponent,
    source: PortSource,
    step: usize,
    last: Option<&[PortValue]>,
) -> PortValue
    requires { step < side.wired.component.now.rate }
    ensures { result ≡ side_value round.entry (member_of_pair side.entry) step (option_copied last.entry) source }
{
    if let PortSource::Link(number) = source
        && let Some(link) = round.design.links().get(number)
        && link.source.0 == side.partner
    {
        return left_by_partner(round, side.wired.component.rate, number, link, last);
    }
    value_brought(round, side.wired.component.rate, source, step)
}

// What the partner left last on a link: before its first step in the round, the last place of the
// link's message.
fn left_by_partner(
    round: RoundInputs,
    rate: u32,
    number: usize,
    link: &Link,
    last: Option<&[PortValue]>,
) -> PortValue
    requires { 0 < rate }
    ensures { result ≡ from_partner round.entry rate number link.now (option_copied last.entry) }
{
    match last {
        Some(row) => place(row, link.out_port as usize),
        None => match round.messages.get(number) {
            Some(message) => place(message.as_slice(), rate as usize - 1),
            None => PortValue::Absent,
        },
    }
}
