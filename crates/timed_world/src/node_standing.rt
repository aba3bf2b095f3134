//! The progress of a node in its rounds, which events it forbids, and the last time that it
//! allows.
ghost use Rattle.std.specs.Prelude.{◌≡◌, ◌<◌, ◌≤◌, nat_lt};
ghost use Rattle.pals_base.specs.declared.limits.TheConstants.{HOUR};
ghost use Rattle.pals_runs.specs.declared.events_and_faults.EventFault.TheVariants as fault;
ghost use Rattle.pals_node.specs.proof.NodeInvariants.{IsPlan};
ghost use Rattle.bus_machine.specs.NodeEvents.{running_step};
ghost use Rattle.run_laws.specs.Deadlines.{last_before, lesser};
ghost use Rattle.run_laws.specs.EventFaults.{found_if};
ghost use Rattle.run_laws.specs.Worlds.{is_last_sent, is_held};

use bus_machine::Plan;
use output_backoff::release_at;
use pals_base::{Gamma, Nanos, NodeNo};
use pals_runs::{EventFault, EventSubject, Phase};
use round_timer::{alarm, step_alarm};

/// The progress of a node of a world: how many rounds it has started, its phase, whether the last
/// round is sent, the reading of its clock, the time since which it is in its phase, and the time since
/// which the steps that are sent are finished. Readings and times are nanoseconds.
#[derive(Drop)]
pub struct NodeStanding {
    pub count: u32,
    pub phase: Phase,
    pub sent: bool,
    pub reading: Nanos,
    pub since: Nanos,
    pub ready: Nanos,
}

impl NodeStanding {
    ghost use Rattle.timed_world.specs.proof.NodeStandings.{IsSound, alarm_of_step, release_of, start_fault};
    ghost use Rattle.timed_world.specs.proof.NodeStandings.{step_fault};
    ghost use Rattle.timed_world.specs.proof.NodeStandings.{finish_fault, send_fault, may_send_round, phase_last};
    ghost use Rattle.timed_world.specs.proof.NodeStandings.{send_last};
    ghost use Rattle.timed_world.specs.proof.NodeStandings.{last_time};

    /// Why it may not start its next round, if so.
    pub fn start_fault(&self, plan: &Plan) -> Option<EventFault>
        requires plan { IsPlan plan.now }
        requires sound { IsSound plan.now self.now }
        ensures { result ≡ start_fault plan.now self.now }
    {
        match self.phase {
            Phase::Waiting => not_due(plan.node, alarm(plan.period, self.count), self.reading),
            Phase::Running(_) | Phase::Between(_) | Phase::Holding | Phase::Done => {
                Some(EventFault::WrongPhase { node: plan.node })
            }
        }
    }

    /// Why it may not start its next step, if so.
    pub fn step_fault(&self, plan: &Plan) -> Option<EventFault>
        requires plan { IsPlan plan.now }
        requires sound { IsSound plan.now self.now }
        ensures { result ≡ step_fault plan.now self.now }
    {
        match self.phase {
            Phase::Between(steps) => {
                not_due(plan.node, self.alarm_of_step(plan, steps), self.reading)
            }
            Phase::Waiting | Phase::Running(_) | Phase::Holding | Phase::Done => {
                Some(EventFault::WrongPhase { node: plan.node })
            }
        }
    }

    /// Why it may not finish its step at a time, if so: a step takes at least `alpha_min`.
    pub fn finish_fault(&self, plan: &Plan, time: Nanos, alpha_min: Nanos) -> Option<EventFault>
        requires sound { IsSound plan.now self.now }
        requires hour { alpha_min ≤ HOUR }
        ensures { result ≡ finish_fault plan.now self.now time alpha_min }
    {
        match self.phase {
            Phase::Running(_) => too_soon(
                EventSubject::Node(plan.node),
                self.since + alpha_min,
                time,
            ),
            Phase::Waiting | Phase::Between(_) | Phase::Holding | Phase::Done => {
                Some(EventFault::WrongPhase { node: plan.node })
            }
        }
    }

    /// Why it may not send its round, if so.
    pub fn send_fault(&self, plan: &Plan) -> Option<EventFault>
        requires plan { IsPlan plan.now }
        requires sound { IsSound plan.now self.now }
        ensures { result ≡ send_fault plan.now self.now }
    {
        if !self.may_send_round(plan) {
            return Some(EventFault::WrongPhase { node: plan.node });
        }
        not_due(plan.node, self.release_of(plan), self.reading)
    }

    /// The last time at which it may be in its phase, or `None`.
    pub fn last_time(&self, plan: &Plan, gamma: &Gamma) -> Option<u128>
        requires plan { IsPlan plan.now }
        requires sound { IsSound plan.now self.now }
        ensures { result ≡ last_time plan.now self.now gamma.now }
    {
        lesser(self.phase_last(plan, gamma), self.send_last(plan, gamma))
    }

    /// Whether the step that is out is the last one that is sent.
    pub fn is_last_sent(&self, plan: &Plan) -> bool
        requires plan { IsPlan plan.now }
        requires sound { IsSound plan.now self.now }
        ensures { result ≡ is_last_sent plan.now.sent_steps (running_step self.now.phase) }
    {
        match self.phase {
            Phase::Running(step) => step + 1 == plan.sent_steps,
            Phase::Waiting | Phase::Between(_) | Phase::Holding | Phase::Done => false,
        }
    }

    /// Whether it holds a round that is finished.
    pub fn is_held(&self) -> bool
        ensures { result ≡ is_held self.now.phase }
    {
        match self.phase {
            Phase::Holding => true,
            Phase::Waiting | Phase::Running(_) | Phase::Between(_) | Phase::Done => false,
        }
    }

    // The last time by its phase.
    fn phase_last(&self, plan: &Plan, gamma: &Gamma) -> Option<u128>
        requires plan { IsPlan plan.now }
        requires sound { IsSound plan.now self.now }
        ensures { result ≡ phase_last plan.now self.now gamma.now self.now.phase }
    {
        match self.phase {
            Phase::Waiting => Some(last_before(alarm(plan.period, self.count), gamma.eps)),
            Phase::Running(_) => Some(u128::from(self.since) + u128::from(gamma.alpha_max)),
            Phase::Between(steps) => Some(last_before(self.alarm_of_step(plan, steps), gamma.eps)),
            Phase::Holding | Phase::Done => None,
        }
    }

    // The last time by its next send.
    fn send_last(&self, plan: &Plan, gamma: &Gamma) -> Option<u128>
        requires plan { IsPlan plan.now }
        requires sound { IsSound plan.now self.now }
        ensures { result ≡ send_last plan.now self.now gamma.now }
    {
        if !self.may_send_round(plan) {
            return None;
        }
        let released = last_before(self.release_of(plan), gamma.eps);
        Some(u128::from(self.ready).max(released))
    }

    // Whether its round may be sent: it is not sent, and enough of its steps are finished.
    fn may_send_round(&self, plan: &Plan) -> bool
        ensures { result ≡ may_send_round plan.now self.now }
    {
        if self.sent {
            return false;
        }
        match self.phase {
            Phase::Running(steps) | Phase::Between(steps) => plan.sent_steps <= steps,
            Phase::Holding => plan.sent_steps <= plan.rate,
            Phase::Waiting | Phase::Done => false,
        }
    }

    // The alarm of a step of the round in hand.
    fn alarm_of_step(&self, plan: &Plan, step: u32) -> Nanos
        requires plan { IsPlan plan.now }
        requires sound { IsSound plan.now self.now }
        requires step { step < plan.now.rate }
        ensures { result ≡ alarm_of_step plan.now self.now step }
    {
        let round = self.count.saturating_sub(1);
        step_alarm(plan.period, plan.step_period, round, step)
    }

    // The release of the round in hand.
    fn release_of(&self, plan: &Plan) -> Nanos
        requires plan { IsPlan plan.now }
        requires sound { IsSound plan.now self.now }
        ensures { result ≡ release_of plan.now self.now }
    {
        let round = self.count.saturating_sub(1);
        release_at(plan.period, plan.release_offset, round)
    }
}

/// A fault where the time is below the earliest one.
pub fn too_soon(subject: EventSubject, earliest: Nanos, time: Nanos) -> Option<EventFault>
    ensures { result ≡ found_if (nat_lt time earliest) (fault.TooSoon subject earliest) }
{
    if time < earliest {
        return Some(EventFault::TooSoon { subject, earliest });
    }
    None
}

// A fault where a reading is below an alarm.
fn not_due(node: NodeNo, alarm: Nanos, reading: Nanos) -> Option<EventFault>
    ensures { result ≡ found_if (nat_lt reading alarm) (fault.NotDue node alarm reading) }
{
    if reading < alarm {
        return Some(EventFault::NotDue {
            node,
            alarm,
            reading,
        });
    }
    None
}

// The last time at which a clock may still be below a reading.
fn last_before(reading: Nanos, eps: Nanos) -> u128
    ensures { result ≡ last_before reading eps }
{
    (u128::from(reading) + u128::from(eps)).saturating_sub(1)
}

// The lesser of two times, where there are two.
fn lesser(a: Option<u128>, b: Option<u128>) -> Option<u128>
    ensures { result ≡ lesser a b }
{
    match (a, b) {
        (None, b) => b,
        (Some(a), None) => Some(a),
        (Some(a), Some(b)) => Some(a.min(b)),
    }
}
