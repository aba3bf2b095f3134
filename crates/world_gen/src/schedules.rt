//! The schedule of a design: all clocks show the time, each step starts at its alarm and takes the
//! minimum time, and each message is sent as early as allowed and takes the minimum time.
ghost use Rattle.std.specs.Prelude.{◌≡◌, ◌≤◌, ◌++◌, All, IfOk, OnOk, replicate};
ghost use Rattle.pals_base.specs.declared.limits.TheConstants.{ROUNDS};
ghost use Rattle.pals_model.specs.declared.environment.Env.{Env};
ghost use Rattle.run_laws.specs.Worlds.{world_run};
ghost use Rattle.world_gen.specs.proof.Schedules.{IsScheduleOf};
ghost use Rattle.world_gen.specs.proof.ScheduleLaws.{IsWhole};
ghost use Rattle.world_gen.specs.proof.EventSeries.{IsEventSeries, moment_events};

use crate::event_series::EventSeries;
use crate::node_and_link_series::{add_events, next_moment, timetable};
use pals_base::{ItemList, Nanos, NoMemory};
use pals_model::Design;
use pals_runs::Event;
use std::alloc::Global;

// The clocks of all nodes show a time.
fn readings(alloc: Global, nodes: usize, time: Nanos) -> Result<ItemList<Nanos>, NoMemory>
    ensures { IfOk result (λ readings. readings ≡ replicate nodes time) }
{
    Ok(ItemList::from_vec(vec![in alloc; time; nodes]?))
}

// Adds a Pass to a moment, and what the courses do at it.
fn add_moment(
    alloc: Global,
    events: &mut ItemList<Event>,
    nodes: usize,
    all_series: &[EventSeries],
    moment: Nanos,
) -> Result<(), NoMemory>
    requires { All IsEventSeries all_series.now }
    ensures { OnOk result (events.new ≡ events.old ++ moment_events nodes all_series.now moment) }
{
    events.push(Event::Pass {
        time: moment,
        readings: readings(alloc, nodes, moment)?,
    })?;
    add_events(events, all_series, moment)
}

/// The schedule of a design for a number of rounds. It is within the bounds, and leaves all nodes
/// done.
pub fn schedule(alloc: Global, design: &Design, rounds: u32) -> Result<ItemList<Event>, NoMemory>
    requires some { 1 ≤ rounds }
    requires most { rounds ≤ ROUNDS }
    ensures exact { IfOk result (λ events. IsScheduleOf design.now rounds events) }
    ensures whole { IfOk result (λ events. (env : Env) → IsWhole (world_run design.now env rounds) events) }
{
    let timetable = timetable(alloc, design, rounds)?;
    let all_series = timetable.as_slice();
    let nodes = design.components().len();
    let mut events = ItemList::new(alloc);
    let mut from = 0;
    while let Some(moment) = next_moment(all_series, from) {
        add_moment(alloc, &mut events, nodes, all_series, moment)?;
        from = moment + 1;
    }
    Ok(events)
}
