//! The events of the nodes.
ghost use Rattle.std.specs.Prelude.{◌≡◌, ◌<◌, ◌≤◌, length, IfOk, IfErr, OnOk, OnErr, IfSome, true};
ghost use Rattle.pals_base.specs.declared.limits.TheConstants.{READING};
ghost use Rattle.bus_machine.specs.Machine.{Finish};
ghost use Rattle.pals_bus.specs.proof.Meeting.{GoesAt};
ghost use Rattle.pals_bus.specs.BusValues.{Happens};
ghost use Rattle.pals_bus.specs.proof.Answers.{StartsRound, BusStartEnds, StepsOn, BusStepEnds, FinishesStep};
ghost use Rattle.pals_bus.specs.proof.Answers.{BusFinishEnds, SendsRound, BusSendEnds};
ghost use Rattle.pals_bus.specs.proof.StepCodesOfNodes.{code_at};

use crate::bus::Bus;
use crate::bus_error::{BusError, BusFinishEnd, BusSendEnd, BusStartEnd, BusStepEnd};
use pals_base::{Nanos, NodeNo};
use pals_node::{Done, Finished, Job, StartEnd};
use pals_runs::JournalEntry;

impl Bus {
    /// A node starts its next round, and returns the job of its first step. If a message of the round
    /// before is missing, the run stops. The call reserves all memory that the end of the step and the
    /// send of the round need. In virtual time, this node must be the next to act at the reading.
    pub fn start(&mut self, node: NodeNo, reading: Option<Nanos>) -> Result<Job, BusStartEnd>
        requires node { node.0 < length self.old.run.design.components }
        requires meets { self.old.meeting ≡ true → GoesAt self.old node.0 reading }
        ensures ok { IfOk result (λ job. StartsRound self.old node reading self.new job) }
        ensures end { IfErr result (λ end. BusStartEnds self.old node reading self.new end) }
    {
        let f = &mut self.fields;
        if let Some(stop) = f.stop {
            return Err(BusError::Stopped(stop));
        }
        f.reserve_round(node)?;
        let round = f.rounds_started(node);
        f.read_values(round);
        let job = match f.nodes.start(node.0 as usize, &f.values, reading) {
            Ok(job) => job,
            Err(end) => {
                let StartEnd::Missed { port } = end else {
                    return Err(BusError::Refused(end));
                };
                let stop = f.missed_stop(node, port, reading);
                f.journal.push_reserved(JournalEntry::Stopped(stop));
                f.stop = Some(stop);
                return Err(BusError::Stopped(stop));
            }
        };
        let entry = JournalEntry::Start {
            node,
            round,
            reading,
        };
        f.journal.push_reserved(entry);
        Ok(job)
    }

    /// A node starts the next step of its round, and returns its job. The call reserves the memory that
    /// the end of the step needs. In virtual time, this node must be the next to act at the reading.
    pub fn step(&mut self, node: NodeNo, reading: Option<Nanos>) -> Result<Job, BusStepEnd>
        requires node { node.0 < length self.old.run.design.components }
        requires meets { self.old.meeting ≡ true → GoesAt self.old node.0 reading }
        ensures ok { IfOk result (λ job. StepsOn self.old node reading self.new job) }
        ensures same { OnErr result (self.new ≡ self.old) }
        ensures cause { IfErr result (BusStepEnds self.old node reading) }
    {
        let f = &mut self.fields;
        if let Some(stop) = f.stop {
            return Err(BusError::Stopped(stop));
        }
        f.reserve_entries()?;
        let job = match f.nodes.step(node.0 as usize, reading) {
            Ok(job) => job,
            Err(end) => return Err(BusError::Refused(end)),
        };
        let entry = JournalEntry::Step {
            node,
            round: job.round(),
            step: job.step(),
            reading,
        };
        f.journal.push_reserved(entry);
        Ok(job)
    }

    /// A node finishes the step of its outstanding job: with the submitted job, if that is the same one,
    /// and otherwise by running the job here. Both have the same result, and neither allocates.
    pub fn finish(&mut self, node: NodeNo, done: Done) -> Result<Finished, BusFinishEnd>
        requires { node.0 < length self.old.run.design.components }
        ensures ok { IfOk result (λ how. FinishesStep self.old node done self.new how) }
        ensures same { OnErr result (self.new ≡ self.old) }
        ensures cause { IfErr result (BusFinishEnds self.old node) }
    {
        let f = &mut self.fields;
        if let Some(stop) = f.stop {
            return Err(BusError::Stopped(stop));
        }
        let round = f.round_in_hand(node);
        let how = match f.nodes.finish(node.0 as usize, done) {
            Ok(how) => how,
            Err(end) => return Err(BusError::Refused(end)),
        };
        f.journal
            .push_reserved(JournalEntry::Finish { node, round });
        Ok(how)
    }

    /// Like `finish`, for a job of the node's own code, so that no code is compared.
    pub fn finish_own(&mut self, node: NodeNo, done: Done) -> Result<Finished, BusFinishEnd>
        requires node { node.0 < length self.old.run.design.components }
        requires own { done.code ≡ code_at self.old.codes node.0 }
        ensures ok { IfOk result (λ how. FinishesStep self.old node done self.new how) }
        ensures same { OnErr result (self.new ≡ self.old) }
        ensures cause { IfErr result (BusFinishEnds self.old node) }
    {
        let f = &mut self.fields;
        if let Some(stop) = f.stop {
            return Err(BusError::Stopped(stop));
        }
        let round = f.round_in_hand(node);
        let how = match f.nodes.finish_own(node.0 as usize, done) {
            Ok(how) => how,
            Err(end) => return Err(BusError::Refused(end)),
        };
        f.journal
            .push_reserved(JournalEntry::Finish { node, round });
        Ok(how)
    }

    /// A node finishes the step of its outstanding job by running it here. Does not allocate.
    pub fn finish_here(&mut self, node: NodeNo) -> Result<(), BusFinishEnd>
        requires { node.0 < length self.old.run.design.components }
        ensures ok { OnOk result (Happens self.old (Finish node) self.new) }
        ensures same { OnErr result (self.new ≡ self.old) }
        ensures cause { IfErr result (BusFinishEnds self.old node) }
    {
        let f = &mut self.fields;
        if let Some(stop) = f.stop {
            return Err(BusError::Stopped(stop));
        }
        let round = f.round_in_hand(node);
        match f.nodes.finish_here(node.0 as usize) {
            Ok(()) => {}
            Err(end) => return Err(BusError::Refused(end)),
        }
        f.journal
            .push_reserved(JournalEntry::Finish { node, round });
        Ok(())
    }

    /// A node sends its round: one message enters flight on each link from it. Does not allocate.
    /// In virtual time, this node must be the next to act at the reading.
    pub fn send(&mut self, node: NodeNo, reading: Option<Nanos>) -> Result<(), BusSendEnd>
        requires node { node.0 < length self.old.run.design.components }
        requires reading { IfSome reading (λ at. at ≤ READING) }
        requires meets { self.old.meeting ≡ true → GoesAt self.old node.0 reading }
        ensures ok { OnOk result (SendsRound self.old node reading self.new) }
        ensures same { OnErr result (self.new ≡ self.old) }
        ensures cause { IfErr result (BusSendEnds self.old node reading) }
    {
        let f = &mut self.fields;
        if let Some(stop) = f.stop {
            return Err(BusError::Stopped(stop));
        }
        let round = f.round_in_hand(node);
        let messages = match f.nodes.send(node.0 as usize, reading) {
            Ok(messages) => messages,
            Err(end) => return Err(BusError::Refused(end)),
        };
        f.send_messages(node, round, reading, messages);
        let entry = JournalEntry::Send {
            node,
            round,
            reading,
        };
        f.journal.push_reserved(entry);
        Ok(())
    }
}
