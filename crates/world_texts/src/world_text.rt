//! The text of a list of timed events.
ghost use Rattle.std.specs.Arc.{arc_value};
ghost use Rattle.std.specs.Prelude.{◌≡◌, ◌≤◌, ◌++◌, length, IfOk};
ghost use Rattle.pals_base.specs.declared.limits.TheConstants.{ROUNDS, LIST_ITEMS};
ghost use Rattle.pals_model.specs.RoundTexts.{text_of};
ghost use Rattle.pals_bus.specs.proof.StepCodesOfNodes.{AreCodes};
ghost use Rattle.run_laws.specs.Worlds.{world_run};
ghost use Rattle.loose_world.specs.proof.FinishedRows.{finished_lines};
ghost use Rattle.loose_world.specs.SentLines.{AreOutLinks};
ghost use Rattle.world_texts.specs.proof.WorldTexts.{IsOpening, TellsEvents, TellsWorld};

use loose_world::{OutLinks, add_finished_rows, add_sent_messages};
use pals_base::{ItemList, NoMemory};
use pals_model::{Design, Env};
use pals_runs::{Event, EventFault};
use std::alloc::{AllocError, Global};
use std::sync::Arc;
use step_code::Code;
use timed_world::{World, WorldEnd};

/// The report on a list of events.
#[derive(Drop)]
pub enum WorldReport {
    /// All events are within the bounds, and this is the text of their world.
    Whole(Vec<u8>),
    /// The event of this index, from 0, is the first that the bounds do not allow, for this fault,
    /// which is not `Memory`.
    Refused { index: u32, fault: EventFault },
}

/// Tells the events of a world of a design, for `rounds` rounds: the rows of the rounds that its
/// nodes finish, and a line for each message that they send; or the first event with a fault.
pub fn tell_world(
    alloc: Global,
    design: Arc<Design>,
    codes: ItemList<Code>,
    env: Env,
    rounds: u32,
    events: &[Event],
) -> Result<WorldReport, NoMemory>
    requires some { 1 ≤ rounds }
    requires most { rounds ≤ ROUNDS }
    requires codes { AreCodes (arc_value design) codes }
    requires few { length events.now ≤ LIST_ITEMS }
    ensures { IfOk result (TellsWorld (world_run (arc_value design) env rounds) events.now) }
{
    let links = OutLinks::new(alloc, &design)?;
    let mut world = World::new(alloc, design, codes, env, rounds)?;
    tell(alloc, &mut world, events, &links)
}

// Tells the events of a world that has had none yet.
fn tell(
    alloc: Global,
    world: &mut World,
    events: &[Event],
    links: &OutLinks,
) -> Result<WorldReport, NoMemory>
    requires opening { IsOpening world.old }
    requires links { AreOutLinks world.old.bus.run.design links.now }
    requires few { length events.now ≤ LIST_ITEMS }
    ensures { IfOk result (TellsWorld world.old.bus.run events.now) }
{
    let mut sent = Vec::new(alloc);
    let end = tell_events(world, events, links, &mut sent)?;
    world.kept();
    match end {
        WorldEnd::All => Ok(WorldReport::Whole(finished(alloc, world, sent.as_slice())?)),
        WorldEnd::At { index, fault } => Ok(WorldReport::Refused { index, fault }),
    }
}

// Does the events in order, up to the first that has a fault, and adds a line for each message that
// they send.
fn tell_events(
    world: &mut World,
    events: &[Event],
    links: &OutLinks,
    sent: &mut Vec<u8>,
) -> Result<WorldEnd, NoMemory>
    requires links { AreOutLinks world.old.bus.run.design links.now }
    requires few { length events.now ≤ LIST_ITEMS }
    ensures { IfOk result (λ end. TellsEvents world.old events.now end world.new sent.old.items sent.new.items) }
{
    for index in 0..events.len() {
        match world.apply(&events[index]) {
            Ok(()) => {}
            Err(EventFault::Memory) => return Err(AllocError),
            Err(fault) => {
                let index = index as u32;
                return Ok(WorldEnd::At { index, fault });
            }
        }
        add_sent_messages(links, sent, world.bus(), &events[index])?;
    }
    Ok(WorldEnd::All)
}

// The rows of the rounds that some node has finished, followed by the lines of the sent messages.
fn finished(alloc: Global, world: &World, sent: &[u8]) -> Result<Vec<u8>, NoMemory>
    ensures { IfOk result (λ text. text.items ≡ text_of (finished_lines world.now.bus) ++ sent.now) }
{
    let mut text = Vec::new(alloc);
    add_finished_rows(alloc, &mut text, world.bus())?;
    text.extend_from_slice(sent)?;
    Ok(text)
}
