//! A list of loose events.
ghost use Rattle.std.specs.Prelude.{◌≡◌, ◌≤◌, ◌++◌, length, All, IfOk, OnOk, OnErr, None, false};
ghost use Rattle.pals_base.specs.declared.limits.TheConstants.{LIST_ITEMS};
ghost use Rattle.pals_model.specs.RoundTexts.{text_of};
ghost use Rattle.pals_bus.specs.LooseEvents.{IsNamedIn};
ghost use Rattle.loose_world.specs.SentLines.{AreOutLinks};
ghost use Rattle.loose_world.specs.LooseRuns.{IsLooseIn, Tells, IsCutShort, told_by};

use crate::OutLinks;
use pals_base::NoMemory;
use pals_bus::{Bus, LooseFault, apply_loose};
use pals_runs::{Event, EventFault, Stop};
use std::alloc::AllocError;

/// How a loose world ended.
#[derive(Clone, Copy)]
pub enum LooseEnd {
    /// Each event happened, and the run has no stop.
    All,
    /// An event gave this stop. The events after it are ignored.
    Stopped(Stop),
    /// The event of this index, from 0, is not allowed: a `WrongPhase` or a `NoSuchMessage`.
    Refused { index: u32, fault: EventFault },
}

/// Executes the events in order, up to the first that gives a stop or is not allowed, and appends a line
/// for each message that they send. If memory runs out, the bus is the one after a prefix of the events,
/// which all happened without a stop, and the text has only lines of these events.
pub fn run_loose(
    bus: &mut Bus,
    events: &[Event],
    links: &OutLinks,
    sent: &mut Vec<u8>,
) -> Result<LooseEnd, NoMemory>
    requires going { bus.old.state.stop ≡ None }
    requires loose { bus.old.meeting ≡ false }
    requires events { All (IsLooseIn bus.old.run.design) events.now }
    requires few { length events.now ≤ LIST_ITEMS }
    requires links { AreOutLinks bus.old.run.design links.now }
    ensures ok { IfOk result (λ end. Tells bus.old events.now end bus.new sent.old.items sent.new.items) }
    ensures err { OnErr result (IsCutShort bus.old events.now bus.new sent.old.items sent.new.items) }
{
    for index in 0..events.len() {
        match apply_loose(bus, &events[index]) {
            Ok(()) => {}
            Err(LooseFault::Stopped(stop)) => return Ok(LooseEnd::Stopped(stop)),
            Err(LooseFault::WrongPhase { node }) => {
                let index = index as u32;
                let fault = EventFault::WrongPhase { node };
                return Ok(LooseEnd::Refused { index, fault });
            }
            Err(LooseFault::NoSuchMessage { link, round }) => {
                let index = index as u32;
                let fault = EventFault::NoSuchMessage { link, round };
                return Ok(LooseEnd::Refused { index, fault });
            }
            Err(LooseFault::Timed) => unreachable!(),
            Err(LooseFault::Memory) => return Err(AllocError),
        }
        add_sent_messages(links, sent, bus, &events[index])?;
    }
    Ok(LooseEnd::All)
}

/// Appends a line for each message that an event has sent, given the bus after it. If memory runs out,
/// nothing is appended.
pub fn add_sent_messages(
    links: &OutLinks,
    sent: &mut Vec<u8>,
    bus: &Bus,
    event: &Event,
) -> Result<(), NoMemory>
    requires links { AreOutLinks bus.now.run.design links.now }
    requires named { IsNamedIn bus.now.run.design event.now }
    ensures ok { OnOk result (sent.new.items ≡ sent.old.items ++ text_of (told_by bus.now event.now)) }
    ensures err { OnErr result (sent.new.items ≡ sent.old.items) }
{
    match *event {
        Event::Send(node) => links.add_messages(sent, bus, node),
        _ => Ok(()),
    }
}
