//! The events of the messages in flight.
ghost use Rattle.std.specs.Prelude.{◌≡◌, ◌<◌, length, IfOk, IfErr, OnOk, OnErr};
ghost use Rattle.bus_machine.specs.Machine.{Arrive, Drop, Repeat, arrival};
ghost use Rattle.pals_bus.specs.BusValues.{Happens};
ghost use Rattle.pals_bus.specs.proof.Answers.{LinkEnds};

use crate::bus::Bus;
use crate::bus_error::{BusError, LinkEnd, MessageError};
use pals_base::{LinkNo, Nanos, TryClone};
use pals_model::FlightCopy;
use pals_runs::{Arrived, JournalEntry};

impl Bus {
    /// A link's message of a round arrives, at a reading of its target's clock, in nanoseconds, or
    /// without one. If it arrives too early, the run stops.
    pub fn deliver(
        &mut self,
        link: LinkNo,
        round: u32,
        reading: Option<Nanos>,
    ) -> Result<Arrived, LinkEnd>
        requires { link.0 < length self.old.run.design.links }
        ensures ok { OnOk result (Happens self.old (Arrive link round reading) self.new) }
        ensures answer { IfOk result (λ arrived. arrived ≡ arrival self.old.run self.old.state link round) }
        ensures same { OnErr result (self.new ≡ self.old) }
        ensures cause { IfErr result (LinkEnds self.old link round) }
    {
        let f = &mut self.fields;
        if let Some(stop) = f.stop {
            return Err(BusError::Stopped(stop));
        }
        f.reserve_entries()?;
        match f.arrive(link, round, reading) {
            Some(arrived) => Ok(arrived),
            None => Err(BusError::Refused(MessageError::NoSuchMessage)),
        }
    }

    /// A copy of a link's message of a round is lost: the oldest one.
    pub fn drop_message(&mut self, link: LinkNo, round: u32) -> Result<(), LinkEnd>
        requires { link.0 < length self.old.run.design.links }
        ensures ok { OnOk result (Happens self.old (Drop link round) self.new) }
        ensures same { OnErr result (self.new ≡ self.old) }
        ensures cause { IfErr result (LinkEnds self.old link round) }
    {
        let f = &mut self.fields;
        if let Some(stop) = f.stop {
            return Err(BusError::Stopped(stop));
        }
        f.reserve_entries()?;
        let Some(_lost) = f.take_message(link, round) else {
            return Err(BusError::Refused(MessageError::NoSuchMessage));
        };
        f.journal.push_reserved(JournalEntry::Drop { link, round });
        Ok(())
    }

    /// One more copy of a link's message of a round is in flight, like the oldest one.
    pub fn repeat_message(&mut self, link: LinkNo, round: u32) -> Result<(), LinkEnd>
        requires { link.0 < length self.old.run.design.links }
        ensures ok { OnOk result (Happens self.old (Repeat link round) self.new) }
        ensures same { OnErr result (self.new ≡ self.old) }
        ensures cause { IfErr result (LinkEnds self.old link round) }
    {
        let f = &mut self.fields;
        if let Some(stop) = f.stop {
            return Err(BusError::Stopped(stop));
        }
        let Some(oldest) = f.flights[link.0 as usize].flight_oldest(round) else {
            return Err(BusError::Refused(MessageError::NoSuchMessage));
        };
        let (copied, due) = (oldest.round, oldest.due);
        let tuple = oldest.tuple.try_clone(f.alloc)?;
        f.reserve_message(link)?;
        let copy = FlightCopy {
            round: copied,
            due,
            tuple,
        };
        f.add_message(link, copy);
        f.journal
            .push_reserved(JournalEntry::Repeat { link, round });
        Ok(())
    }
}
