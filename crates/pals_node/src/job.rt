//! The job of one step, which may run anywhere, its result, and how the step was finished.
ghost use Rattle.std.specs.Prelude.{◌≡◌, ◌↔◌, length, IsTrue, IfOk};
ghost use Rattle.std.specs.Arc.{arc_value};
ghost use Rattle.step_code.specs.proof.CodeRuns.{FitsCode};
ghost use Rattle.pals_node.specs.proof.NodeAndJobValues.{IsResult, job_value};
ghost use Rattle.pals_node.specs.proof.JobMemories.{HasMemory, IsLeft};

use crate::instruction_key::same_instr;
use crate::job_memory::{Memory, memory_for};
use crate::plan::NodePlan;
use pals_base::{Frame, NoMemory, NodeNo, PortValue, Same, Tuple};
use std::alloc::Global;
use std::marker::Model;
use std::mem::swap;
use std::sync::Arc;
use step_code::{CodeParts, Instr};
use step_vm::Room;

/// The start of a step: its round, its number in the round, from 0, the frame before it, and the values of
/// the in ports in it.
#[derive(Clone, Copy)]
pub(crate) struct StepStart<'a> {
    pub round: u32,
    pub step: u32,
    pub frame: &'a Frame,
    pub inputs: &'a Tuple,
}

/// The job of one step: the inputs, the frame before it, and all the room that it needs.
/// The model is its step and its code.
pub struct Job {
    plan: Arc<NodePlan>,
    round: u32,
    step: u32,
    frame: Frame,
    inputs: Tuple,
    result: Frame,
    outs: Vec<PortValue>,
    room: Room,
}

// By hand, so that dropping a job is one call, which the crates above cite.
impl Drop for Job {
    fn drop(self) {
        let Job {
            plan: _,
            round: _,
            step: _,
            frame: _,
            inputs: _,
            result: _,
            outs: _,
            room: _,
        } = self;
    }
}

impl Model for Job {
    ghost use Rattle.std.specs.Arc.{arc_value};
    ghost use Rattle.pals_node.specs.proof.NodeAndJobValues.{JobValue, job_value};

    ghost Value = { JobValue };

    ghost use Rattle.pals_node.specs.proof.NodeInvariants.{IsJob};

    ghost view = { λ j. job_value (arc_value j.plan) j.round j.step j.frame j.inputs };

    ghost invariant = { λ j. IsJob (arc_value j.plan).code j.frame j.inputs j.result j.outs.items j.room };
}

/// A finished job, with the results of its code. The model is the job.
pub struct Done {
    plan: Arc<NodePlan>,
    round: u32,
    step: u32,
    frame: Frame,
    inputs: Tuple,
    result: Frame,
    outs: Vec<PortValue>,
    room: Room,
}

impl Drop for Done {
    fn drop(self) {
        let Done {
            plan: _,
            round: _,
            step: _,
            frame: _,
            inputs: _,
            result: _,
            outs: _,
            room: _,
        } = self;
    }
}

impl Model for Done {
    ghost use Rattle.std.specs.Arc.{arc_value};
    ghost use Rattle.step_vm.specs.proof.RoomCapacity.{IsRoomOf};
    ghost use Rattle.pals_node.specs.proof.NodeAndJobValues.{JobValue, IsResult, job_value};

    ghost Value = { JobValue };

    ghost view = { λ d. job_value (arc_value d.plan) d.round d.step d.frame d.inputs };

    ghost invariant = { λ d. IsResult (job_value (arc_value d.plan) d.round d.step d.frame d.inputs)
        (record { frame = d.result; outs = d.outs.items })
        × IsRoomOf (arc_value d.plan).code d.room };
}

/// How a step was finished: with the submitted job, or by running the job here.
#[derive(Clone, Copy, PartialEq, Debug)]
pub enum Finished {
    Used,
    Redone,
}

impl Job {
    /// The job of a step, which fits its code. It takes over the memory of an earlier job, where there
    /// is some.
    pub(crate) fn new(
        alloc: Global,
        plan: &Arc<NodePlan>,
        start: StepStart,
        spare: Option<Memory>,
    ) -> Result<Job, NoMemory>
        requires frame { FitsCode (arc_value plan.now).code start.frame.now }
        requires inputs { length start.inputs.now ≡ (arc_value plan.now).code.ins }
        requires spare { HasMemory (arc_value plan.now).code spare }
        ensures { IfOk result (λ job. job ≡ job_value (arc_value plan.now) start.entry.round start.entry.step
            start.entry.frame.now start.entry.inputs.now) }
    {
        let plan = Arc::try_clone(plan)?;
        let memory = memory_for(alloc, &plan.code, start.frame, start.inputs, spare)?;
        let Memory {
            frame,
            inputs,
            result,
            outs,
            room,
        } = memory;
        Ok(Job {
            plan,
            round: start.round,
            step: start.step,
            frame,
            inputs,
            result,
            outs,
            room,
        })
    }

    /// The node whose step it is.
    pub fn node(&self) -> NodeNo
        ensures { result ≡ self.now.work.node }
    {
        self.plan.plan.node
    }

    /// The round of the step.
    pub fn round(&self) -> u32
        ensures { result ≡ self.now.work.round }
    {
        self.round
    }

    /// The step, from 0, within the round.
    pub fn step(&self) -> u32
        ensures { result ≡ self.now.work.step }
    {
        self.step
    }

    /// The frame before the step.
    pub fn frame(&self) -> &Frame
        ensures { result.now ≡ self.now.work.frame }
    {
        &self.frame
    }

    /// What the in ports have in the step.
    pub fn inputs(&self) -> &Tuple
        ensures { result.now ≡ self.now.work.inputs }
    {
        &self.inputs
    }

    /// Runs the step. Does not allocate.
    pub fn run(self) -> Done
        ensures { result ≡ self }
    {
        let Job {
            plan,
            round,
            step,
            frame,
            inputs,
            mut result,
            mut outs,
            mut room,
        } = self;
        step_vm::run(
            &plan.code,
            &mut room,
            &mut result,
            inputs.as_slice(),
            &mut outs,
        );
        Done {
            plan,
            round,
            step,
            frame,
            inputs,
            result,
            outs,
            room,
        }
    }
}

impl Done {
    /// The node whose step it was.
    pub fn node(&self) -> NodeNo
        ensures { result ≡ self.now.work.node }
    {
        self.plan.plan.node
    }

    /// Whether its code is a plan's code. The lengths are compared first.
    pub(crate) fn has_code_of(&self, plan: &NodePlan) -> bool
        ensures { IsTrue result ↔ (self.now.code ≡ plan.now.code) }
    {
        same_code(self.plan.code.parts(), plan.code.parts())
    }

    /// Whether this is the job of a step, if its code is the node's. No code is compared.
    pub(crate) fn is_work_of(&self, plan: &NodePlan, start: StepStart) -> bool
        ensures { IsTrue result ↔ (self.now.work ≡ (job_value plan.now start.entry.round start.entry.step
            start.entry.frame.now start.entry.inputs.now).work) }
    {
        self.plan.plan.node == plan.plan.node
            && self.round == start.round
            && self.step == start.step
            && self.frame.same(start.frame)
            && self.inputs.same(start.inputs)
    }

    /// Swaps its resulting frame and outputs with the ones of the step before, which go into the memory
    /// that it returns.
    pub(crate) fn give_result(self, last: &mut Frame, row: &mut Vec<PortValue>) -> Memory
        ensures result { IsResult self (record { frame = last.new; outs = row.new.items }) }
        ensures memory { IsLeft self last.old row.old.items result }
    {
        let Done {
            plan: _,
            round: _,
            step: _,
            frame,
            inputs,
            mut result,
            mut outs,
            room,
        } = self;
        swap(last, &mut result);
        swap(row, &mut outs);
        Memory {
            frame,
            inputs,
            result,
            outs,
            room,
        }
    }
}

// Whether two codes are the same.
fn same_code(left: &CodeParts, right: &CodeParts) -> bool
    ensures { IsTrue result ↔ (left.now ≡ right.now) }
{
    left.vars == right.vars
        && left.loops == right.loops
        && left.ins == right.ins
        && left.outs == right.outs
        && same_instrs(left.instrs.as_slice(), right.instrs.as_slice())
        && same_entries(left.entries.as_slice(), right.entries.as_slice())
}

fn same_instrs(left: &[Instr], right: &[Instr]) -> bool
    ensures { IsTrue result ↔ (left.now ≡ right.now) }
{
    if left.len() != right.len() {
        return false;
    }
    for at in 0..left.len() {
        if !same_instr(left[at], right[at]) {
            return false;
        }
    }
    true
}

fn same_entries(left: &[Option<u32>], right: &[Option<u32>]) -> bool
    ensures { IsTrue result ↔ (left.now ≡ right.now) }
{
    left == right
}
