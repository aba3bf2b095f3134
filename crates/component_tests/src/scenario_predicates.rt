//! Predicates on scenarios that are read: whether they have the values of a case.
use pals_base::{LinkNo, NodeNo, PortValue, Text};
use pals_clock::Clocks;
use pals_model::{Delays, Env};
use pals_runs::Event;
use scenario_json::Scenario;

// Whether the links have their least delays.
fn are_least(delays: &Delays) -> bool {
    for list in delays.lists.iter() {
        if list.as_slice() != [1_000_000].as_slice() {
            return false;
        }
    }
    delays.lists.len() == 6
}

// Whether there is one feed, and no value for it.
fn is_silent(env: &Env) -> bool {
    match env.lists.as_slice() {
        [list] => list.is_empty(),
        _ => false,
    }
}

fn has_no_lists(read: &Scenario) -> bool {
    read.events.is_empty()
        && read.trace.is_empty()
        && read.properties.is_empty()
        && read.replicas.is_empty()
        && read.faults.is_empty()
        && read.plants.is_empty()
        && read.processors.is_empty()
}

// Whether a scenario holds two rounds, and nothing else.
fn has_defaults(read: &Scenario) -> bool {
    read.rounds == 2
        && is_silent(&read.env)
        && matches!(read.clocks, Clocks::Meet)
        && are_least(&read.delays)
        && has_no_lists(read)
}

const ON: [PortValue; 3] = [
    PortValue::Present(1),
    PortValue::Absent,
    PortValue::Present(0),
];

fn are_inputs(env: &Env) -> bool {
    let [level, on] = env.lists.as_slice() else {
        return false;
    };
    level.as_slice() == [PortValue::Present(-5)].as_slice() && on.as_slice() == ON.as_slice()
}

fn are_clocks(clocks: &Clocks) -> bool {
    let Clocks::Lists(clocks) = clocks else {
        return false;
    };
    let [sender, reader] = clocks.as_slice() else {
        return false;
    };
    sender.readings().is_empty() && reader.readings() == [1, 1, 7].as_slice()
}

fn are_delays(delays: &Delays) -> bool {
    match delays.lists.as_slice() {
        [delays] => delays.as_slice() == [3, 4].as_slice(),
        _ => false,
    }
}

fn is_trace(trace: &[Text]) -> bool {
    match trace {
        [_round, letter] => letter.as_bytes() == b"\xc3\xa9".as_slice(),
        _ => false,
    }
}

// Whether a scenario holds what the one of the run does.
fn is_run(read: &Scenario) -> bool {
    are_inputs(&read.env)
        && are_clocks(&read.clocks)
        && are_delays(&read.delays)
        && is_trace(read.trace.as_slice())
}

// Whether these are one event of each form.
fn are_events(events: &[Event]) -> bool {
    let [pass, start, step, finish, send, arrive, drop, repeat] = events else {
        return false;
    };
    let passes = match pass {
        Event::Pass { time, readings } => *time == 5 && readings.as_slice() == [6, 7].as_slice(),
        _ => false,
    };
    passes
        && matches!(start, Event::Start(NodeNo(1)))
        && matches!(step, Event::Step(NodeNo(0)))
        && matches!(finish, Event::Finish(NodeNo(0)))
        && matches!(send, Event::Send(NodeNo(1)))
        && matches!(arrive, Event::Arrive(LinkNo(0), 1))
        && matches!(drop, Event::Drop(LinkNo(1), 2))
        && matches!(repeat, Event::Repeat(LinkNo(1), 3))
}

/// Whether a scenario satisfies the predicate of this name.
pub fn holds(read: &Scenario, what: &str) -> bool {
    match what {
        "defaults" => has_defaults(read),
        "run" => is_run(read),
        "events" => are_events(read.events.as_slice()),
        _ => true,
    }
}
