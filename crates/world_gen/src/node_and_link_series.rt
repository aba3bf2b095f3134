//! The event series of a design's nodes and links, and what they do moment by moment. All times are nanoseconds.
ghost use Rattle.std.specs.Prelude.{◌≡◌, ◌<◌, ◌≤◌, ◌++◌, length, All, IfOk, OnOk};
ghost use Rattle.pals_base.specs.declared.limits.TheConstants.{ROUNDS};
ghost use Rattle.run_laws.specs.Deadlines.{lesser};
ghost use Rattle.world_gen.specs.proof.Schedules.{send_time};
ghost use Rattle.world_gen.specs.proof.EventSeries.{IsEventSeries, begin_series, finish_series, send_series};
ghost use Rattle.world_gen.specs.proof.EventSeries.{arrive_series, all_begins, all_finishes, all_sends, all_arrivals};
ghost use Rattle.world_gen.specs.proof.EventSeries.{timetable, next_moment, events_of};

use crate::event_series::{EventKind, EventSeries};
use pals_base::period_bound_and_releases::step_period;
use pals_base::{ItemList, LinkNo, Nanos, NoMemory, NodeNo};
use pals_model::Design;
use pals_runs::Event;
use std::alloc::Global;

// The steps of a node, as they begin.
fn begin_series(design: &Design, rounds: u32, node: NodeNo) -> EventSeries
    requires few { rounds ≤ ROUNDS }
    requires within { node.0 < length design.now.components }
    ensures { result ≡ begin_series design.now rounds node.0 }
{
    let rate = design.parts().rate(node);
    EventSeries {
        event_kind: EventKind::Begin { node, rate },
        first: design.period(),
        every: step_period(design.period(), rate),
        count: rounds * rate,
    }
}

// The steps of a node, as they finish.
fn finish_series(design: &Design, rounds: u32, node: NodeNo) -> EventSeries
    requires few { rounds ≤ ROUNDS }
    requires within { node.0 < length design.now.components }
    ensures { result ≡ finish_series design.now rounds node.0 }
{
    let rate = design.parts().rate(node);
    EventSeries {
        event_kind: EventKind::Finish(node),
        first: design.period() + design.gamma().alpha_min,
        every: step_period(design.period(), rate),
        count: rounds * rate,
    }
}

// When a node sends its first round: once the last step that is sent is finished, and not before
// its release.
fn first_send(design: &Design, node: NodeNo) -> Nanos
    requires { node.0 < length design.now.components }
    ensures { result ≡ send_time design.now node.0 0 }
{
    let period = design.period();
    let gamma = design.gamma();
    let rate = design.parts().rate(node);
    let later_steps = u64::from(gamma.sent_steps(period, rate) - 1);
    let finished = period + later_steps * step_period(period, rate) + gamma.alpha_min;
    let released = period + gamma.release_offset(period, rate) as u64;
    finished.max(released)
}

// The rounds that a node sends.
fn send_series(design: &Design, rounds: u32, node: NodeNo) -> EventSeries
    requires { node.0 < length design.now.components }
    ensures { result ≡ send_series design.now rounds node.0 }
{
    EventSeries {
        event_kind: EventKind::Send(node),
        first: first_send(design, node),
        every: design.period(),
        count: rounds,
    }
}

// The messages of a link, as they arrive.
fn arrive_series(design: &Design, rounds: u32, link: LinkNo) -> EventSeries
    requires { link.0 < length design.now.links }
    ensures { result ≡ arrive_series design.now rounds link.0 }
{
    let source = design.links()[link.0 as usize].source;
    EventSeries {
        event_kind: EventKind::Arrive(link),
        first: first_send(design, source) + design.gamma().mu_min,
        every: design.period(),
        count: rounds,
    }
}

#[tactic(auto, using(crate::proofs::TabulatedLists::add_numbered))]
fn add_begins(
    all_series: &mut ItemList<EventSeries>,
    design: &Design,
    rounds: u32,
) -> Result<(), NoMemory>
    requires { rounds ≤ ROUNDS }
    ensures { OnOk result (all_series.new ≡ all_series.old ++ all_begins design.now rounds) }
{
    for node in 0..design.components().len() {
        all_series.push(begin_series(design, rounds, NodeNo(node as u32)))?;
    }
    Ok(())
}

#[tactic(auto, using(crate::proofs::TabulatedLists::add_numbered))]
fn add_finishes(
    all_series: &mut ItemList<EventSeries>,
    design: &Design,
    rounds: u32,
) -> Result<(), NoMemory>
    requires { rounds ≤ ROUNDS }
    ensures { OnOk result (all_series.new ≡ all_series.old ++ all_finishes design.now rounds) }
{
    for node in 0..design.components().len() {
        all_series.push(finish_series(design, rounds, NodeNo(node as u32)))?;
    }
    Ok(())
}

#[tactic(auto, using(crate::proofs::TabulatedLists::add_numbered))]
fn add_sends(
    all_series: &mut ItemList<EventSeries>,
    design: &Design,
    rounds: u32,
) -> Result<(), NoMemory>
    ensures { OnOk result (all_series.new ≡ all_series.old ++ all_sends design.now rounds) }
{
    for node in 0..design.components().len() {
        all_series.push(send_series(design, rounds, NodeNo(node as u32)))?;
    }
    Ok(())
}

#[tactic(auto, using(crate::proofs::TabulatedLists::add_numbered))]
fn add_arrivals(
    all_series: &mut ItemList<EventSeries>,
    design: &Design,
    rounds: u32,
) -> Result<(), NoMemory>
    ensures { OnOk result (all_series.new ≡ all_series.old ++ all_arrivals design.now rounds) }
{
    for link in 0..design.links().len() {
        all_series.push(arrive_series(design, rounds, LinkNo(link as u32)))?;
    }
    Ok(())
}

/// The series of a design for a number of rounds, in the order in which they occur at one moment.
pub fn timetable(
    alloc: Global,
    design: &Design,
    rounds: u32,
) -> Result<ItemList<EventSeries>, NoMemory>
    requires { rounds ≤ ROUNDS }
    ensures { IfOk result (λ all_series. all_series ≡ timetable design.now rounds) }
{
    let mut all_series = ItemList::new(alloc);
    let is_instant = design.gamma().alpha_min == 0;
    if !is_instant {
        add_finishes(&mut all_series, design, rounds)?;
    }
    add_begins(&mut all_series, design, rounds)?;
    if is_instant {
        add_finishes(&mut all_series, design, rounds)?;
    }
    add_sends(&mut all_series, design, rounds)?;
    add_arrivals(&mut all_series, design, rounds)?;
    Ok(all_series)
}

// The smaller of two times, if there are two.
fn lesser(a: Option<Nanos>, b: Option<Nanos>) -> Option<Nanos>
    ensures { result ≡ lesser a b }
{
    match (a, b) {
        (None, b) => b,
        (Some(a), None) => Some(a),
        (Some(a), Some(b)) => Some(a.min(b)),
    }
}

/// The next moment, from a time on, at which one of the series has an event, or `None`.
pub fn next_moment(all_series: &[EventSeries], from: Nanos) -> Option<Nanos>
    requires { All IsEventSeries all_series.now }
    ensures { result ≡ next_moment all_series.now from }
{
    let mut moment = None;
    for series in all_series {
        moment = lesser(moment, series.next_time(from));
    }
    moment
}

/// Adds what the courses do at a moment.
pub fn add_events(
    events: &mut ItemList<Event>,
    all_series: &[EventSeries],
    moment: Nanos,
) -> Result<(), NoMemory>
    requires { All IsEventSeries all_series.now }
    ensures { OnOk result (events.new ≡ events.old ++ events_of all_series.now moment) }
{
    for series in all_series {
        if let Some(number) = series.number_at(moment) {
            events.push(series.event_kind.event(number))?;
        }
    }
    Ok(())
}
