//! The steps that one component runs in a round.
ghost use Rattle.std.specs.Prelude.{◌≡◌, ◌<◌, [], IfOk, OnOk, length, map, vec_len, slice_index_or, slice_set};
ghost use Rattle.behaviour_sem.specs.proof.GroupedTransitions.{sources_of};
ghost use Rattle.pals_base.specs.SingleStep.{fire};
ghost use Rattle.pals_base.specs.StepSequences.{frame_after, outputs};
ghost use Rattle.pals_base.specs.Tuples.{column};
ghost use Rattle.sync_product.specs.proof.Rounds.{vectors};
ghost use Rattle.sync_product.specs.proof.ProductSizes.{frame_size, part_size, stage_size, frame_size_of, part_size_of};
ghost use Rattle.sync_product.specs.proof.ProductSizes.{stage_size_of};

use crate::round_inputs::{RoundInputs, write_inputs};
use crate::tuple_columns::write_port_tuple;
use crate::wiring::WiredComponent;
use behaviour_sem::{TransitionGroups, fire_into};
use pals_base::tuples::absent;
use pals_base::{Behaviour, Frame, ItemList, NoMemory, PortValue, Tuple};
use pals_model::{Component, Part};
use std::alloc::Global;
use std::mem::swap;

/// The room in which one component runs its steps: the allocator of its loops, its transitions by
/// state, the inputs and outputs of a step, the frame before it, the outputs of each step of the
/// round, and the number of steps that are sent.
pub struct Stage {
    pub alloc: Global,
    pub groups: TransitionGroups,
    pub inputs: Tuple,
    pub outs: Vec<PortValue>,
    pub before: Frame,
    pub rows: ItemList<Tuple>,
    pub sent: usize,
}

impl Drop for Stage {
    fn drop(self) {
        let Stage {
            alloc: _,
            groups: _,
            inputs: _,
            outs: _,
            before: _,
            rows: _,
            sent: _,
        } = self;
    }
}

impl Stage {
    /// Makes room for a component that sends `sent` of its steps.
    pub fn new(
        alloc: Global,
        component: &Component,
        groups: TransitionGroups,
        sent: usize,
    ) -> Result<Stage, NoMemory>
        requires { groups ≡ sources_of component.now.behaviour.transitions }
        ensures { IfOk result (λ stage. stage_size stage ≡ stage_size_of sent component.now) }
    {
        let outs = component.behaviour.outs().len();
        let mut rows = ItemList::new(alloc);
        for _step in 0..component.rate {
            rows.push(absent(alloc, outs)?)?;
        }
        Ok(Stage {
            alloc,
            groups,
            inputs: absent(alloc, component.behaviour.ins().len())?,
            outs: vec![in alloc; PortValue::Absent; outs]?,
            before: Frame::initial(alloc, &component.behaviour)?,
            rows,
            sent,
        })
    }

    /// Makes the steps of a round from a frame. At Ok the part and the rows are theirs; the sizes
    /// stay in every case.
    pub fn run(
        &mut self,
        wired: WiredComponent,
        round: RoundInputs,
        from: &Frame,
        part: &mut Part,
    ) -> Result<(), NoMemory>
        requires stage { stage_size self.old ≡ stage_size_of self.old.sent wired.component.now }
        requires sources { length wired.sources.now ≡ length wired.component.now.behaviour.ins }
        requires from { frame_size from.now ≡ frame_size_of wired.component.now }
        requires part { part_size part.old ≡ part_size_of wired.component.now wired.taps.now }
        ensures frame { let c = wired.entry.component.now in OnOk result
            (part.new.frame ≡ frame_after c.behaviour from.now (vectors round.entry c wired.entry.sources.now)) }
        ensures rows { let c = wired.entry.component.now in OnOk result
            (self.new.rows ≡ outputs c.behaviour from.now (vectors round.entry c wired.entry.sources.now)) }
        ensures outs { OnOk result (part.new.outs ≡ map (λ port. column port self.new.rows) wired.entry.taps.now) }
        ensures part_size { part_size part.new ≡ part_size part.old }
        ensures stage_size { stage_size self.new ≡ stage_size self.old }
    {
        self.make_steps(wired, round, from, &mut part.frame)?;
        write_taps(&mut part.outs, self.rows.as_slice(), wired.taps);
        Ok(())
    }

    // Makes the steps into another frame.
    fn make_steps(
        &mut self,
        wired: WiredComponent,
        round: RoundInputs,
        from: &Frame,
        to: &mut Frame,
    ) -> Result<(), NoMemory>
        requires stage { stage_size self.old ≡ stage_size_of self.old.sent wired.component.now }
        requires sources { length wired.sources.now ≡ length wired.component.now.behaviour.ins }
        requires from { frame_size from.now ≡ frame_size_of wired.component.now }
        requires to { frame_size to.old ≡ frame_size_of wired.component.now }
        ensures frame { let c = wired.entry.component.now in OnOk result
            (to.new ≡ frame_after c.behaviour from.now (vectors round.entry c wired.entry.sources.now)) }
        ensures rows { let c = wired.entry.component.now in OnOk result
            (self.new.rows ≡ outputs c.behaviour from.now (vectors round.entry c wired.entry.sources.now)) }
        ensures frame_size { frame_size to.new ≡ frame_size to.old }
        ensures stage_size { stage_size self.new ≡ stage_size self.old }
    {
        to.copy_from(from);
        for step in 0..wired.component.rate as usize {
            write_inputs(&mut self.inputs, round, wired, step);
            self.make_step(&wired.component.behaviour, step, to)?;
        }
        Ok(())
    }

    /// Runs one step from the prepared inputs, and stores its outputs in the row of its number.
    pub fn make_step(
        &mut self,
        behaviour: &Behaviour,
        step: usize,
        frame: &mut Frame,
    ) -> Result<(), NoMemory>
        requires groups { self.old.groups ≡ sources_of behaviour.now.transitions }
        requires frame { frame_size self.old.before ≡ frame_size frame.old }
        requires outs { vec_len self.old.outs ≡ length behaviour.now.outs }
        requires step { step < length self.old.rows }
        requires row { length (slice_index_or self.old.rows step []) ≡ length behaviour.now.outs }
        ensures frame { OnOk result (frame.new ≡ (fire behaviour.now frame.old self.old.inputs).frame) }
        ensures row { OnOk result (self.new.rows
            ≡ slice_set self.old.rows step (fire behaviour.now frame.old self.old.inputs).outs) }
        ensures frame_size { frame_size frame.new ≡ frame_size frame.old }
        ensures stage_size { stage_size self.new ≡ stage_size self.old }
    {
        swap(&mut self.before, frame);
        let inputs = self.inputs.as_slice();
        fire_into(
            self.alloc,
            behaviour,
            &self.groups,
            &self.before,
            inputs,
            frame,
            self.outs.as_mut_slice(),
        )?;
        let row = &mut self.rows[step];
        row.copy_from_slice(self.outs.as_slice());
        Ok(())
    }
}

/// Writes what the root out ports show of these rows.
pub fn write_taps(outs: &mut ItemList<Tuple>, rows: &[Tuple], taps: &[u32])
    requires { map (λ tuple. length tuple) outs.old ≡ map (λ _. length rows.now) taps.now }
    ensures after { outs.new ≡ map (λ port. column port rows.now) taps.now }
    ensures sizes { map (λ tuple. length tuple) outs.new ≡ map (λ tuple. length tuple) outs.old }
{
    for at in 0..taps.len() {
        write_port_tuple(&mut outs[at], rows, taps[at] as usize, rows.len());
    }
}
