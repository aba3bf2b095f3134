//! A node, event by event.
ghost use Rattle.std.specs.Prelude.{◌≡◌, ◌↔◌, ◌<◌, ◌≤◌, ◌-◌, ◌&&◌, not, false, nat_eq, nat_le, IfOk, IfErr, OnErr};
ghost use Rattle.std.specs.Prelude.{OnOk, IsTrue, length, option_copied, option_map, slice_get, slice_index_or};
ghost use Rattle.std.specs.Prelude.{position, zip, None};
ghost use Rattle.std.specs.Prelude.{if◌then◌else◌};
ghost use Rattle.std.specs.Option.{option_map_or};
ghost use Rattle.std.specs.Arc.{arc_value};
ghost use Rattle.pals_base.specs.declared.limits.TheConstants.{ROUNDS, PORTS};
ghost use Rattle.bus_machine.specs.Nodes.{finished_steps};
ghost use Rattle.bus_machine.specs.NodeEvents.{arrived, received, lacks};
ghost use Rattle.bus_machine.specs.ActionsAndTargets.{target, action_of, next_of};
ghost use Rattle.pals_node.specs.proof.NodeAndJobValues.{opening_value, with_state};
ghost use Rattle.pals_node.specs.proof.Answers.{is_early, Starts, StartEnds, Steps, StepEnds, FinishesWith};
ghost use Rattle.pals_node.specs.proof.Answers.{FinishesHere, NoneRuns, Sends, SendEnds};

use crate::job::{Done, Finished, Job, StepStart};
use crate::next_actions::{next_in_round, next_send, next_start};
use crate::node_fields_and_events::NodeFields;
use crate::plan::NodePlan;
use crate::refusals::{FinishEnd, SendEnd, StartEnd, StepEnd};
use bus_machine::{Input, Next, Plan};
use link_buffers::Slot;
use output_backoff::release_at;
use pals_base::{ItemList, Nanos, NoMemory, PortValue, Tuple};
use pals_model::Part;
use pals_runs::{Arrived, Phase};
use round_timer::{alarm, step_alarm};
use std::alloc::Global;
use std::marker::Model;
use std::sync::Arc;

/// A node of a run. The model is its plan with its code, the number of rounds, and its
/// state. A refused call leaves it unchanged.
pub struct Node {
    fields: NodeFields,
}

impl Drop for Node {
    fn drop(self) {
        let Node { fields: _ } = self;
    }
}

impl Model for Node {
    ghost use Rattle.pals_node.specs.proof.NodeAndJobValues.{NodeValue};

    ghost Value = { NodeValue };

    ghost use Rattle.pals_node.specs.proof.Codes.{node_code};

    ghost coded = { node_code };

    ghost use Rattle.pals_node.specs.proof.NodeInvariants.{Keeps, value_of};

    ghost view = { λ n. value_of n.fields };

    ghost invariant = { λ n. Keeps n.fields };
}

impl Node {
    /// A node before its first round, of a run of `rounds` rounds.
    pub fn new(alloc: Global, plan: Arc<NodePlan>, rounds: u32) -> Result<Node, NoMemory>
        requires some { 1 ≤ rounds }
        requires most { rounds ≤ ROUNDS }
        ensures { IfOk result (λ node. node ≡ opening_value (arc_value plan) rounds) }
    {
        Ok(Node {
            fields: NodeFields::new(alloc, plan, rounds)?,
        })
    }

    /// A node before its first round, of the same plan and of as many rounds.
    pub fn fresh(&self, alloc: Global) -> Result<Node, NoMemory>
        requires { 1 ≤ self.now.rounds }
        ensures { IfOk result (λ node. node ≡ opening_value self.now.program self.now.rounds) }
    {
        let plan = Arc::try_clone(&self.fields.plan)?;
        Node::new(alloc, plan, self.fields.rounds)
    }

    /// What the node needs to know of its design.
    pub fn plan(&self) -> &Plan
        ensures { result.now ≡ self.now.program.plan }
    {
        &self.fields.plan.plan
    }

    /// An in port receives a message of a round. Does not allocate.
    pub fn arrive(&mut self, port: u32, round: u32, tuple: Tuple) -> Arrived
        requires { port < length self.old.state.slots }
        ensures answer { result ≡ arrived self.old.state port round }
        ensures node { self.new ≡ with_state self.old (received self.old.state port round tuple) }
    {
        let count = self.fields.count;
        let slot = &mut self.fields.slots[port as usize];
        if count <= round {
            return Arrived::Early;
        }
        if round + 1 != count || slot.is_full() {
            return Arrived::Ignored;
        }
        let _ = slot.slot_put(tuple);
        Arrived::Kept
    }

    /// Starts the next round, with these values of the root in ports, and gives the job of its first
    /// step. It reserves all memory that the steps' ends and the send of the round need.
    pub fn start(&mut self, env: &[PortValue], reading: Option<Nanos>) -> Result<Job, StartEnd>
        ensures ok { IfOk result (λ job. Starts self.old env.now reading self.new job) }
        ensures same { OnErr result (self.new ≡ self.old) }
        ensures cause { IfErr result (StartEnds self.old reading) }
    {
        match self.fields.phase {
            Phase::Waiting => {}
            Phase::Done => return Err(StartEnd::Over),
            _ => return Err(StartEnd::Busy),
        }
        let alarm = alarm(self.fields.plan.plan.period, self.fields.count);
        if is_early(reading, alarm) {
            return Err(StartEnd::NotYet { alarm });
        }
        let f = &self.fields;
        match missing(&f.plan.plan, f.count, f.slots.as_slice()) {
            Some(port) => Err(StartEnd::Missed { port }),
            None => Ok(self.fields.start(env)?),
        }
    }

    /// Starts the next step of the round, and gives its job.
    pub fn step(&mut self, reading: Option<Nanos>) -> Result<Job, StepEnd>
        ensures ok { IfOk result (λ job. Steps self.old reading self.new job) }
        ensures same { OnErr result (self.new ≡ self.old) }
        ensures cause { IfErr result (StepEnds self.old reading) }
    {
        let Phase::Between(step) = self.fields.phase else {
            return Err(StepEnd::NotBetween);
        };
        let plan = &self.fields.plan.plan;
        let alarm = step_alarm(plan.period, plan.step_period, self.fields.count - 1, step);
        if is_early(reading, alarm) {
            return Err(StepEnd::NotYet { alarm });
        }
        let job = self.fields.job(step)?;
        self.fields.phase = Phase::Running(step);
        Ok(job)
    }

    /// Finishes the outstanding step: with the submitted job, if that is the outstanding one, and
    /// otherwise by running that job here. Both have the same result, and neither allocates.
    pub fn finish(&mut self, done: Done) -> Result<Finished, FinishEnd>
        ensures ok { IfOk result (λ how. FinishesWith self.old done self.new how) }
        ensures same { OnErr result (self.new ≡ self.old) }
        ensures cause { OnErr result (NoneRuns self.old) }
    {
        if self.is_own(&done) {
            return self.finish_own(done);
        }
        self.finish_here()?;
        Ok(Finished::Redone)
    }

    /// Like `finish`, for a job of this node's own code, so that no code is compared.
    pub fn finish_own(&mut self, done: Done) -> Result<Finished, FinishEnd>
        requires own { done.code ≡ self.old.program.code }
        ensures ok { IfOk result (λ how. FinishesWith self.old done self.new how) }
        ensures same { OnErr result (self.new ≡ self.old) }
        ensures cause { OnErr result (NoneRuns self.old) }
    {
        let Phase::Running(step) = self.fields.phase else {
            return Err(FinishEnd::NotRunning);
        };
        let f = &mut self.fields;
        let start = StepStart {
            round: f.count - 1,
            step,
            frame: &f.frame,
            inputs: &f.vectors[step as usize],
        };
        if done.is_work_of(&f.plan, start) {
            f.take_step(step, done);
            return Ok(Finished::Used);
        }
        f.run_step(step);
        Ok(Finished::Redone)
    }

    /// Finishes the outstanding step by running its job here. Does not allocate.
    pub fn finish_here(&mut self) -> Result<(), FinishEnd>
        ensures ok { OnOk result (FinishesHere self.old self.new) }
        ensures same { OnErr result (self.new ≡ self.old) }
        ensures cause { OnErr result (NoneRuns self.old) }
    {
        let Phase::Running(step) = self.fields.phase else {
            return Err(FinishEnd::NotRunning);
        };
        self.fields.run_step(step);
        Ok(())
    }

    /// Sends the current round: one message for each link from the node, in order. Does not
    /// allocate.
    pub fn send(&mut self, reading: Option<Nanos>) -> Result<ItemList<Tuple>, SendEnd>
        ensures ok { IfOk result (λ messages. Sends self.old reading self.new messages) }
        ensures same { OnErr result (self.new ≡ self.old) }
        ensures cause { IfErr result (SendEnds self.old reading) }
    {
        let plan = &self.fields.plan.plan;
        let finished = finished_steps(plan.rate, self.fields.phase);
        if !may_send(plan, self.fields.sent, finished) {
            return Err(SendEnd::NotFinished);
        }
        let release = release_at(plan.period, plan.release_offset, self.fields.count - 1);
        if is_early(reading, release) {
            return Err(SendEnd::NotYet { release });
        }
        Ok(self.fields.send())
    }

    /// How many rounds it has started.
    pub fn count(&self) -> u32
        ensures { result ≡ self.now.state.count }
    {
        self.fields.count
    }

    /// What it is doing.
    pub fn phase(&self) -> Phase
        ensures { result ≡ self.now.state.phase }
    {
        self.fields.phase
    }

    /// Whether the last round that it started is sent; true before the first one.
    pub fn sent(&self) -> bool
        ensures { result ≡ self.now.state.sent }
    {
        self.fields.sent
    }

    /// What it does next, and from which reading on: a start, a step or a send. None where the job
    /// of a step is out, or all its rounds are done.
    pub fn next(&self) -> Option<Next>
        ensures { result ≡ next_of self.now.program.plan self.now.state }
    {
        let f = &self.fields;
        let plan = &f.plan.plan;
        match f.phase {
            Phase::Waiting => Some(next_start(plan, f.count)),
            Phase::Between(steps) => Some(next_in_round(plan, f.count - 1, steps, f.sent)),
            Phase::Holding => Some(next_send(plan, f.count - 1)),
            Phase::Running(_) | Phase::Done => None,
        }
    }

    /// The reading from which on its current or next action may happen; `None` if it is done.
    pub fn target(&self) -> Option<Nanos>
        ensures { result ≡ option_map (target self.now.program.plan) (action_of self.now.program.plan self.now.state) }
    {
        let f = &self.fields;
        let plan = &f.plan.plan;
        match f.phase {
            Phase::Running(0) => Some(alarm(plan.period, f.count - 1)),
            Phase::Running(step) => Some(step_alarm(
                plan.period,
                plan.step_period,
                f.count - 1,
                step,
            )),
            _ => match self.next() {
                Some(next) => Some(next.target),
                None => None,
            },
        }
    }

    /// What each round that it finished left.
    pub fn parts(&self) -> &[Part]
        ensures { result.now ≡ self.now.state.parts }
    {
        self.fields.parts.as_slice()
    }

    /// The part of the last round that it finished; `None` before the first.
    pub fn part(&self) -> Option<&Part>
        ensures { option_copied result ≡ slice_get self.now.state.parts (length self.now.state.parts - 1) }
    {
        self.fields.parts.last()
    }

    // Whether a finished job belongs to this node and has its code. The node is compared first.
    fn is_own(&self, done: &Done) -> bool
        ensures { IsTrue result ↔ ((done.now.work.node ≡ self.now.program.plan.node)
            × (done.now.code ≡ self.now.program.code)) }
    {
        done.node() == self.fields.plan.plan.node && done.has_code_of(&self.fields.plan)
    }
}

// The first in port whose message a start would miss.
fn missing(plan: &Plan, count: u32, slots: &[Slot]) -> Option<u32>
    requires count { length slots.now ≡ length plan.now.inputs }
    requires few { length plan.now.inputs ≤ PORTS }
    ensures { result ≡ (if nat_eq count 0 then None
        else position (λ p. lacks p.0 p.1) (zip plan.now.inputs slots.now)) }
{
    if count == 0 {
        return None;
    }
    first_empty(plan.inputs.as_slice(), slots)
}

// The first in port that a link goes to, with an empty slot.
fn first_empty(inputs: &[Input], slots: &[Slot]) -> Option<u32>
    requires count { length slots.now ≡ length inputs.now }
    requires few { length inputs.now ≤ PORTS }
    ensures { result ≡ position (λ p. lacks p.0 p.1) (zip inputs.now slots.now) }
{
    for at in 0..inputs.len() {
        if lacks_at(inputs, slots, at) {
            return Some(at as u32);
        }
    }
    None
}

// Whether the in port of a number lacks its message.
fn lacks_at(inputs: &[Input], slots: &[Slot], at: usize) -> bool
    requires input { at < length inputs.now }
    requires slot { at < length slots.now }
    ensures { result ≡ lacks (slice_index_or inputs.now at Input.Nothing) (slice_index_or slots.now at None) }
{
    lacks(&inputs[at], &slots[at])
}

// Whether an in port that a link goes to has an empty slot.
fn lacks(input: &Input, slot: &Slot) -> bool
    ensures { result ≡ lacks input.now slot.now }
{
    match *input {
        Input::Nothing | Input::Root { .. } => false,
        Input::Link { .. } => !slot.is_full(),
    }
}

// Whether a reading is given, and below an alarm.
fn is_early(reading: Option<Nanos>, alarm: Nanos) -> bool
    ensures { result ≡ is_early reading alarm }
{
    match reading {
        None => false,
        Some(at) => at < alarm,
    }
}

// How many steps of the round in hand are finished, where one is in hand.
fn finished_steps(rate: u32, phase: Phase) -> Option<u32>
    ensures { result ≡ finished_steps rate phase }
{
    match phase {
        Phase::Waiting | Phase::Done => None,
        Phase::Running(step) => Some(step),
        Phase::Between(steps) => Some(steps),
        Phase::Holding => Some(rate),
    }
}

// Whether a round may be sent, by the number of its finished steps, if it has one.
fn may_send(plan: &Plan, sent: bool, finished: Option<u32>) -> bool
    ensures { result ≡ (not sent && option_map_or (nat_le plan.now.sent_steps) finished false) }
{
    match finished {
        None => false,
        Some(steps) => !sent && plan.sent_steps <= steps,
    }
}
