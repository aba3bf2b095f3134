//! The fields of a node, and the effect of each event on them.
ghost use Rattle.std.specs.Prelude.{◌≡◌, ◌+◌, ◌<◌, ◌≤◌, ◌++◌, ◌∷◌, IfOk, OnOk, OnErr, length, replicate, vec_len};
ghost use Rattle.std.specs.Prelude.{vec_capacity, if◌then◌else◌, Some, None, nat_eq, true, false, [], All, Option};
ghost use Rattle.std.specs.Arc.{arc_value};
ghost use Rattle.pals_base.specs.declared.limits.TheConstants.{ROUNDS};
ghost use Rattle.pals_base.specs.declared.basic_types.PortValue.{PortValue};
ghost use Rattle.pals_base.specs.declared.basic_types.PortValue.TheVariants.{Absent};
ghost use Rattle.pals_base.specs.SingleStep.{HasShape};
ghost use Rattle.pals_runs.specs.declared.phase.Phase.TheVariants.{Running};
ghost use Rattle.bus_machine.specs.NodeEvents.{started, sent_from, messages_from, may_send, part_left};
ghost use Rattle.pals_node.specs.proof.NodeAndJobValues.{job_at, opening_value, with_state};
ghost use Rattle.pals_node.specs.proof.JobMemories.{HasMemory};
ghost use Rattle.pals_node.specs.proof.RoundStarts.{empty_part, IsBegun, first_job_of, begun_with};
ghost use Rattle.bus_machine.specs.Nodes.{at_rest, vectors_of};
ghost use Rattle.pals_node.specs.proof.NodeInvariants.{Keeps, IsProgram, PhaseKeeps, HasRound, HasPartRoom, IsPartRoom};
ghost use Rattle.pals_node.specs.proof.NodeInvariants.{AreTuples, IsStepMade, value_of, state_of, finished_value};
ghost use Rattle.pals_node.specs.proof.NodeInvariants.{ended_at};

use crate::job::{Done, Job, StepStart};
use crate::job_memory::Memory;
use crate::plan::NodePlan;
use crate::slots_and_input_vectors::{empty_all, empty_slots, round_vectors};
use crate::written_tuples::{absent_tuples, write_places, write_ports};
use bus_machine::Plan;
use link_buffers::Slot;
use pals_base::{Frame, ItemList, NoMemory, PortValue, Tuple};
use pals_model::Part;
use pals_runs::Phase;
use std::alloc::Global;
use std::sync::Arc;
use step_vm::Room;

/// The state of a node, the room for its steps, the memory that its last start reserved, and the memory of
/// the last finished job.
pub struct NodeFields {
    pub alloc: Global,
    pub plan: Arc<NodePlan>,
    pub rounds: u32,
    pub count: u32,
    pub phase: Phase,
    pub frame: Frame,
    pub slots: ItemList<Slot>,
    pub vectors: ItemList<Tuple>,
    pub outs: ItemList<Tuple>,
    pub sent: bool,
    pub parts: Vec<Part>,
    pub next_part: Option<Part>,
    pub messages: Option<ItemList<Tuple>>,
    pub room: Room,
    pub row: Vec<PortValue>,
    pub spare: Option<Memory>,
}

// By hand, so that dropping a node is one call, which the crates above cite.
impl Drop for NodeFields {
    fn drop(self) {
        let NodeFields {
            alloc: _,
            plan: _,
            rounds: _,
            count: _,
            phase: _,
            frame: _,
            slots: _,
            vectors: _,
            outs: _,
            sent: _,
            parts: _,
            next_part: _,
            messages: _,
            room: _,
            row: _,
            spare: _,
        } = self;
    }
}

impl NodeFields {
    /// A node before its first round.
    pub fn new(alloc: Global, plan: Arc<NodePlan>, rounds: u32) -> Result<NodeFields, NoMemory>
        requires some { 1 ≤ rounds }
        requires most { rounds ≤ ROUNDS }
        ensures value { IfOk result (λ f. value_of f ≡ opening_value (arc_value plan) rounds) }
        ensures keeps { IfOk result Keeps }
    {
        plan.rules();
        let outs = plan.code.parts().outs as usize;
        let frame = Frame::initial(alloc, &plan.plan.behaviour)?;
        let slots = empty_slots(alloc, plan.plan.inputs.as_slice())?;
        let room = Room::for_code(alloc, &plan.code)?;
        let row = vec![in alloc; PortValue::Absent; outs]?;
        Ok(NodeFields {
            alloc,
            plan,
            rounds,
            count: 0,
            phase: Phase::Waiting,
            frame,
            slots,
            vectors: ItemList::new(alloc),
            outs: ItemList::new(alloc),
            sent: true,
            parts: Vec::new(alloc),
            next_part: None,
            messages: None,
            room,
            row,
            spare: None,
        })
    }

    /// The job of a step of the round in hand.
    pub fn job(&self, step: u32) -> Result<Job, NoMemory>
        requires keeps { Keeps self.now }
        requires round { HasRound (arc_value self.now.plan).plan self.now }
        requires step { step < (arc_value self.now.plan).plan.rate }
        ensures { IfOk result (λ job. job ≡ job_at (value_of self.now) step) }
    {
        let start = StepStart {
            round: self.count.saturating_sub(1),
            step,
            frame: &self.frame,
            inputs: &self.vectors[step as usize],
        };
        Job::new(self.alloc, &self.plan, start, None)
    }

    /// Starts the next round, and reserves the memory of its steps, its part and its messages.
    pub fn start(&mut self, env: &[PortValue]) -> Result<Job, NoMemory>
        requires keeps { Keeps self.old }
        requires waits { self.old.phase ≡ Phase.Waiting }
        ensures ok { OnOk result (value_of self.new
            ≡ with_state (value_of self.old) (started (arc_value self.old.plan).plan env.now (state_of self.old))) }
        ensures keeps { Keeps self.new }
        ensures job { IfOk result (λ job. job ≡ job_at (value_of self.new) 0) }
        ensures same { OnErr result (value_of self.new ≡ value_of self.old) }
    {
        self.parts.reserve(1)?;
        let spare = self.spare.take();
        let (room, job) = self.next_round(env, spare)?;
        self.begin(room);
        Ok(job)
    }

    // What the start of the next round reserves, and the job of its first step.
    fn next_round(
        &self,
        env: &[PortValue],
        spare: Option<Memory>,
    ) -> Result<(RoundRoom, Job), NoMemory>
        requires program { IsProgram (arc_value self.now.plan) }
        requires slots { length self.now.slots ≡ length (arc_value self.now.plan).plan.inputs }
        requires frame { HasShape (arc_value self.now.plan).plan.behaviour self.now.frame }
        requires spare { HasMemory (arc_value self.now.plan).code spare }
        ensures room { IfOk result (λ made. IsBegun (arc_value self.now.plan).plan env.now self.now.slots made.0) }
        ensures job { IfOk result (λ made. made.1
            ≡ first_job_of (arc_value self.now.plan) self.now.count self.now.frame env.now self.now.slots) }
    {
        let (vectors, job) = self.first_job(env, spare)?;
        let room = round_room(self.alloc, &self.plan.plan, vectors)?;
        Ok((room, job))
    }

    // The vectors of the next round, and the job of its first step.
    fn first_job(
        &self,
        env: &[PortValue],
        spare: Option<Memory>,
    ) -> Result<(ItemList<Tuple>, Job), NoMemory>
        requires program { IsProgram (arc_value self.now.plan) }
        requires slots { length self.now.slots ≡ length (arc_value self.now.plan).plan.inputs }
        requires frame { HasShape (arc_value self.now.plan).plan.behaviour self.now.frame }
        requires spare { HasMemory (arc_value self.now.plan).code spare }
        ensures vectors { IfOk result (λ found. found.0
            ≡ vectors_of (arc_value self.now.plan).plan env.now self.now.slots) }
        ensures job { IfOk result (λ found. found.1
            ≡ first_job_of (arc_value self.now.plan) self.now.count self.now.frame env.now self.now.slots) }
    {
        let plan = &self.plan;
        let vectors = round_vectors(self.alloc, &plan.plan, env, self.slots.as_slice())?;
        let start = StepStart {
            round: self.count,
            step: 0,
            frame: &self.frame,
            inputs: &vectors[0],
        };
        let job = Job::new(self.alloc, plan, start, spare)?;
        Ok((vectors, job))
    }

    // Begins a round with the memory that its start reserved. Does not allocate.
    fn begin(&mut self, room: RoundRoom)
        requires count { self.old.count < ROUNDS }
        ensures { self.new ≡ begun_with self.old room }
    {
        let RoundRoom {
            vectors,
            outs,
            messages,
            part,
        } = room;
        self.count += 1;
        self.phase = Phase::Running(0);
        empty_all(&mut self.slots);
        self.vectors = vectors;
        self.outs = outs;
        self.sent = false;
        self.next_part = Some(part);
        self.messages = Some(messages);
    }

    /// Runs the outstanding step here. Does not allocate.
    pub fn run_step(&mut self, step: u32)
        requires keeps { Keeps self.old }
        requires runs { self.old.phase ≡ Running step }
        ensures value { value_of self.new ≡ finished_value self.old step }
        ensures keeps { Keeps self.new }
    {
        let inputs = self.vectors[step as usize].as_slice();
        step_vm::run(
            &self.plan.code,
            &mut self.room,
            &mut self.frame,
            inputs,
            &mut self.row,
        );
        self.end_step(step);
    }

    /// Takes the result of the outstanding job. Does not allocate.
    pub fn take_step(&mut self, step: u32, done: Done)
        requires keeps { Keeps self.old }
        requires runs { self.old.phase ≡ Running step }
        requires job { done ≡ job_at (value_of self.old) step }
        ensures value { value_of self.new ≡ finished_value self.old step }
        ensures keeps { Keeps self.new }
    {
        let memory = done.give_result(&mut self.frame, &mut self.row);
        self.spare = Some(memory);
        self.end_step(step);
    }

    // Ends a step whose frame and row of outputs are there.
    fn end_step(&mut self, step: u32)
        requires ready { IsStepMade self.old step }
        ensures state { state_of self.new ≡ ended_at (arc_value self.old.plan).plan self.old step }
        ensures keeps { PhaseKeeps (arc_value self.old.plan).plan self.new self.new.phase }
        ensures others { self.new ≡ record self.old
            { phase = self.new.phase; outs = self.new.outs; parts = self.new.parts; next_part = self.new.next_part } }
    {
        write_places(&mut self.outs, step as usize, self.row.as_slice());
        if step + 1 < self.plan.plan.rate {
            self.phase = Phase::Between(step + 1);
            return;
        }
        leave_part(
            &mut self.parts,
            &mut self.next_part,
            &self.plan.plan,
            &self.frame,
            self.outs.as_slice(),
        );
        self.phase = after_round(self.sent, self.count, self.rounds);
    }

    /// Sends the current round. Does not allocate.
    pub fn send(&mut self) -> ItemList<Tuple>
        requires keeps { Keeps self.old }
        requires may { may_send (arc_value self.old.plan).plan (state_of self.old) ≡ true }
        ensures value { value_of self.new ≡ with_state (value_of self.old)
            (sent_from self.old.rounds (state_of self.old)) }
        ensures messages { result ≡ messages_from (arc_value self.old.plan).plan (state_of self.old) }
        ensures keeps { Keeps self.new }
    {
        self.sent = true;
        if self.phase == Phase::Holding {
            self.phase = at_rest(self.count, self.rounds);
        }
        match self.messages.take() {
            None => unreachable!(),
            Some(mut messages) => {
                let plan = &self.plan.plan;
                write_ports(
                    &mut messages,
                    self.outs.as_slice(),
                    plan.out_links.as_slice(),
                    plan.sent_steps,
                    plan.rate,
                );
                messages
            }
        }
    }
}

// What the start of a round reserves.
#[derive(Drop)]
struct RoundRoom {
    vectors: ItemList<Tuple>,
    outs: ItemList<Tuple>,
    messages: ItemList<Tuple>,
    part: Part,
}

// Room for a round, with these vectors.
fn round_room(alloc: Global, plan: &Plan, vectors: ItemList<Tuple>) -> Result<RoundRoom, NoMemory>
    ensures vectors { IfOk result (λ room. room.vectors ≡ vectors) }
    ensures outs { IfOk result (λ room. room.outs
        ≡ replicate (length plan.now.behaviour.outs) (replicate plan.now.rate Absent)) }
    ensures messages { IfOk result (λ room. room.messages
        ≡ replicate (length plan.now.out_links) (replicate plan.now.rate Absent)) }
    ensures part { IfOk result (λ room. room.part ≡ empty_part plan.now) }
{
    let outs = absent_tuples(alloc, plan.behaviour.outs().len(), plan.rate)?;
    let messages = absent_tuples(alloc, plan.out_links.len(), plan.rate)?;
    let part = part_room(alloc, plan)?;
    Ok(RoundRoom {
        vectors,
        outs,
        messages,
        part,
    })
}

// The room for the part of a round.
fn part_room(alloc: Global, plan: &Plan) -> Result<Part, NoMemory>
    ensures { IfOk result (λ part. part ≡ empty_part plan.now) }
{
    let frame = Frame::initial(alloc, &plan.behaviour)?;
    let outs = absent_tuples(alloc, plan.taps.len(), plan.rate)?;
    Ok(Part { frame, outs })
}

// The phase between two rounds.
fn at_rest(count: u32, rounds: u32) -> Phase
    ensures { result ≡ at_rest (nat_eq count rounds) }
{
    if count == rounds {
        Phase::Done
    } else {
        Phase::Waiting
    }
}

// The phase after the last step of a round.
fn after_round(sent: bool, count: u32, rounds: u32) -> Phase
    ensures { result ≡ (if sent then at_rest (nat_eq count rounds) else Phase.Holding) }
{
    if sent {
        at_rest(count, rounds)
    } else {
        Phase::Holding
    }
}

// Leaves the part of a round, in the room that its start reserved.
fn leave_part(
    parts: &mut Vec<Part>,
    next: &mut Option<Part>,
    plan: &Plan,
    frame: &Frame,
    outs: &[Tuple],
)
    requires place { vec_len parts.old < vec_capacity parts.old }
    requires room { HasPartRoom plan.now next.old }
    requires vars { length frame.now.vars ≡ length plan.now.behaviour.vars }
    requires held { length frame.now.held ≡ length plan.now.behaviour.ins }
    requires outs { AreTuples (length plan.now.behaviour.outs) plan.now.rate outs.now }
    requires taps { All (λ port. port < length plan.now.behaviour.outs) plan.now.taps }
    ensures { parts.new.items ≡ parts.old.items ++ part_left plan.now (record { frame = frame.now; outs = [] }) outs.now
        ∷ [] }
{
    match next.take() {
        None => unreachable!(),
        Some(mut part) => {
            write_part(&mut part, plan, frame, outs);
            parts.push_reserved(part);
        }
    }
}

// Writes the part of a round.
fn write_part(part: &mut Part, plan: &Plan, frame: &Frame, outs: &[Tuple])
    requires room { IsPartRoom plan.now part.old }
    requires vars { length frame.now.vars ≡ length plan.now.behaviour.vars }
    requires held { length frame.now.held ≡ length plan.now.behaviour.ins }
    requires outs { AreTuples (length plan.now.behaviour.outs) plan.now.rate outs.now }
    requires taps { All (λ port. port < length plan.now.behaviour.outs) plan.now.taps }
    ensures { part.new ≡ part_left plan.now (record { frame = frame.now; outs = [] }) outs.now }
{
    part.frame.copy_from(frame);
    write_ports(
        &mut part.outs,
        outs,
        plan.taps.as_slice(),
        plan.rate,
        plan.rate,
    );
}
