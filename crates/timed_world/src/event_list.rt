//! A list of events in a world.
ghost use Rattle.std.specs.Prelude.{◌≤◌, length, IfOk, OnErr};
ghost use Rattle.pals_base.specs.declared.limits.TheConstants.{LIST_ITEMS};
ghost use Rattle.timed_world.specs.proof.EventLists.{ListEnds, IsCutShort};

use crate::world::World;
use pals_base::NoMemory;
use pals_runs::{Event, EventFault};
use std::alloc::AllocError;

/// How a list of events ended.
#[derive(Clone, Copy)]
pub enum WorldEnd {
    /// Each event happened.
    All,
    /// The event of this index, from 0, has this fault, which is not `Memory`. The events after it are
    /// ignored.
    At { index: u32, fault: EventFault },
}

/// Executes the events in order, up to the first that has a fault. If memory runs out, the world is the one
/// after a prefix of them, which all happened.
pub fn run_list(world: &mut World, events: &[Event]) -> Result<WorldEnd, NoMemory>
    requires few { length events.now ≤ LIST_ITEMS }
    ensures ok { IfOk result (λ end. ListEnds world.old events.now end world.new) }
    ensures err { OnErr result (IsCutShort world.old events.now world.new) }
{
    for index in 0..events.len() {
        match world.apply(&events[index]) {
            Ok(()) => {}
            Err(EventFault::Memory) => return Err(AllocError),
            Err(fault) => {
                let index = index as u32;
                return Ok(WorldEnd::At { index, fault });
            }
        }
    }
    Ok(WorldEnd::All)
}
