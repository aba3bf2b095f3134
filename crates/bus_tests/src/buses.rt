//! Tests of the bus, call by call, in worked rows with the journal that they leave.
use crate::checked_bus_calls::{
    bus_of, count, finish, finish_here, is_in_flight, meet, phase, repeat, send, start, step,
    take_due, tells,
};
use case_files::example_designs::{TURN, TWO_COUNTERS};
use pals_base::{LinkNo, Nanos, NoMemory, NodeNo};
use pals_bus::{Bus, DueEnd, Meet};
use pals_node::Finished;
use pals_runs::{Phase, Stop};
use std::alloc::Global;
use std::process::Abort;
use std::test::Fail;

// The two counters.
const A: NodeNo = NodeNo(0);

const B: NodeNo = NodeNo(1);

// The link into the second.
const TO_B: LinkNo = LinkNo(1);

// The tail of the plane, which runs four steps a round.
const TAIL: NodeNo = NodeNo(3);

// A call of a bus, and its expected result.
#[derive(Clone, Copy)]
enum BusRow {
    /// A round of one step: the reading of its alarm, and the one of its release.
    Round(NodeNo, Nanos, Nanos),
    Start(NodeNo, Nanos),
    /// The step of this number, whose job is run and used.
    Step(NodeNo, u32, Nanos),
    /// The end of the step whose job is out.
    Finish(NodeNo),
    Repeat(LinkNo, u32),
    TakeDue(NodeNo, Nanos, Result<(), DueEnd>),
    Meet(NodeNo, Meet),
    /// Whether a copy of this round is in flight.
    Flies(LinkNo, u32, bool),
    /// What a node does.
    Stands(NodeNo, Phase),
    Close,
}

// The calls of a table on a bus have the results of the table.
fn assert_rows(rt: &impl Abort, bus: &mut Bus, rows: &[BusRow]) {
    for (index, row) in rows.iter().enumerate() {
        assert!(rt; holds(bus, *row), "row {index}");
    }
}

fn holds(bus: &mut Bus, row: BusRow) -> bool {
    match row {
        BusRow::Round(node, alarm, release) => {
            starts(bus, node, alarm) && finish_here(bus, node) && send(bus, node, release)
        }
        BusRow::Start(node, at) => starts(bus, node, at),
        BusRow::Step(node, number, at) => steps(bus, node, number, at),
        BusRow::Finish(node) => finish_here(bus, node),
        BusRow::Repeat(link, round) => repeat(bus, link, round),
        BusRow::TakeDue(node, at, end) => take_due(bus, node, at) == Some(end),
        BusRow::Meet(node, answer) => meet(bus, node) == Some(answer),
        BusRow::Flies(link, round, wanted) => is_in_flight(bus, link, round) == wanted,
        BusRow::Stands(node, wanted) => phase(bus, node) == Some(wanted),
        BusRow::Close => {
            bus.close();
            bus.closed()
        }
    }
}

fn starts(bus: &mut Bus, node: NodeNo, at: Nanos) -> bool {
    match start(bus, node, at) {
        Some(job) => (job.node(), job.step()) == (node, 0),
        None => false,
    }
}

fn steps(bus: &mut Bus, node: NodeNo, number: u32, at: Nanos) -> bool {
    match step(bus, node, at) {
        Some(job) if (job.node(), job.step()) == (node, number) => {
            finish(bus, node, job.run()) == Some(Finished::Used)
        }
        Some(_) | None => false,
    }
}

// A table of calls on a bus of a design that runs two rounds, and the bus's observers after them.
fn assert_run(
    rt: &impl Abort,
    alloc: Global,
    design: &str,
    meeting: bool,
    rows: &[BusRow],
    told: &str,
) -> Result<(), Fail> {
    let mut bus = bus_of(rt, alloc, design, 2, meeting)?;
    assert_rows(rt, &mut bus, rows);
    assert!(rt; tells(alloc, &bus, told)?);
    Ok(())
}

const SURFACE: [BusRow; 5] = [
    BusRow::Start(TAIL, 20_000_000),
    BusRow::Finish(TAIL),
    BusRow::Stands(TAIL, Phase::Between(1)),
    BusRow::Step(TAIL, 1, 25_000_000),
    BusRow::Stands(TAIL, Phase::Between(2)),
];

const SURFACE_TOLD: &str = "start p.t 0 20000000\n\
finish p.t 0\n\
step p.t 0 1 25000000\n\
finish p.t 0\n";

#[test]
fn surface_steps_on_the_bus(rt: HostRuntime) -> Result<(), Fail> {
    assert_run(&rt, rt.alloc(), TURN, false, &SURFACE, SURFACE_TOLD)
}

const DUE: [BusRow; 7] = [
    BusRow::Round(A, 9_000_000, 10_000_000),
    BusRow::Round(B, 9_000_000, 10_000_000),
    BusRow::Repeat(TO_B, 0),
    BusRow::TakeDue(B, 10_999_999, Ok(())),
    BusRow::Flies(TO_B, 0, true),
    BusRow::TakeDue(B, 11_000_000, Ok(())),
    BusRow::Flies(TO_B, 0, false),
];

const DUE_TOLD: &str = "start p.a 0 9000000\n\
finish p.a 0\n\
send p.a 0 10000000\n\
start p.b 0 9000000\n\
finish p.b 0\n\
send p.b 0 10000000\n\
repeat p.b.i 0\n\
arrive p.b.i 0 11000000 kept\n\
arrive p.b.i 0 11000000 ignored\n";

#[test]
fn due_messages_arrive(rt: HostRuntime) -> Result<(), Fail> {
    assert_run(&rt, rt.alloc(), TWO_COUNTERS, false, &DUE, DUE_TOLD)
}

const NOT_DUE: [BusRow; 7] = [
    BusRow::Round(A, 9_000_000, 10_000_000),
    BusRow::Round(B, 9_000_000, 10_000_000),
    BusRow::TakeDue(A, 18_000_000, Ok(())),
    BusRow::Round(A, 18_000_000, 19_000_000),
    BusRow::TakeDue(B, 19_999_999, Ok(())),
    BusRow::Flies(TO_B, 0, false),
    BusRow::Flies(TO_B, 1, true),
];

const NOT_DUE_TOLD: &str = "start p.a 0 9000000\n\
finish p.a 0\n\
send p.a 0 10000000\n\
start p.b 0 9000000\n\
finish p.b 0\n\
send p.b 0 10000000\n\
arrive p.a.i 0 18000000 kept\n\
start p.a 1 18000000\n\
finish p.a 1\n\
send p.a 1 19000000\n\
arrive p.b.i 0 19999999 kept\n";

#[test]
fn messages_that_are_not_due_stay(rt: HostRuntime) -> Result<(), Fail> {
    assert_run(&rt, rt.alloc(), TWO_COUNTERS, false, &NOT_DUE, NOT_DUE_TOLD)
}

const STOPPED_EARLY: Stop = Stop::Early {
    link: TO_B,
    round: 0,
    reading: Some(11_000_000),
};

const EARLY: [BusRow; 5] = [
    BusRow::Round(A, 9_000_000, 10_000_000),
    BusRow::Repeat(TO_B, 0),
    BusRow::TakeDue(B, 11_000_000, Err(DueEnd::Stopped(STOPPED_EARLY))),
    BusRow::Flies(TO_B, 0, true),
    BusRow::TakeDue(B, 11_000_000, Err(DueEnd::Stopped(STOPPED_EARLY))),
];

const EARLY_TOLD: &str = "start p.a 0 9000000\n\
finish p.a 0\n\
send p.a 0 10000000\n\
repeat p.b.i 0\n\
arrive p.b.i 0 11000000 early\n\
stop early p.b.i 0 11000000\n";

#[test]
fn early_message_stops_those_behind_it(rt: HostRuntime) -> Result<(), Fail> {
    assert_run(&rt, rt.alloc(), TWO_COUNTERS, false, &EARLY, EARLY_TOLD)
}

const MEETING: [BusRow; 6] = [
    BusRow::Start(A, 9_000_000),
    BusRow::Meet(B, Meet::Go { reading: 9_000_000 }),
    BusRow::Finish(A),
    BusRow::Meet(A, Meet::Wait { node: B }),
    BusRow::Close,
    BusRow::Meet(B, Meet::Ended),
];

const MEETING_TOLD: &str = "start p.a 0 9000000\n\
finish p.a 0\n";

#[test]
fn nodes_meet(rt: HostRuntime) -> Result<(), Fail> {
    assert_run(&rt, rt.alloc(), TWO_COUNTERS, true, &MEETING, MEETING_TOLD)
}

// Whether a fresh bus belongs to the run of the bus, before its first event.
fn is_fresh(alloc: Global, bus: &Bus) -> Result<bool, NoMemory> {
    let fresh = bus.fresh(alloc)?;
    let unmoved = !fresh.closed() && fresh.journal().is_empty() && count(&fresh, A) == Some(0);
    Ok(unmoved && bus.same_run(&fresh))
}

// Whether a bus that runs one round belongs to the run of the bus.
fn is_of_one_round(rt: &impl Abort, alloc: Global, bus: &Bus) -> Result<bool, Fail> {
    let shorter = bus_of(rt, alloc, TWO_COUNTERS, 1, true)?;
    Ok(bus.same_run(&shorter))
}

// Whether a bus distinguishes a bus of its run from a bus of another.
fn tells_its_run(rt: &impl Abort, alloc: Global, bus: &Bus) -> Result<bool, Fail> {
    Ok(is_fresh(alloc, bus)? && !is_of_one_round(rt, alloc, bus)?)
}

#[test]
fn fresh_bus_is_of_the_same_run(rt: HostRuntime) -> Result<(), Fail> {
    let alloc = rt.alloc();
    let mut bus = bus_of(&rt, alloc, TWO_COUNTERS, 2, true)?;
    assert_rows(&rt, &mut bus, &MEETING);
    assert!(rt; tells_its_run(&rt, alloc, &bus)?);
    Ok(())
}
