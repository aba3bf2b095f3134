//! The lines of journals, of refused events and of refused scenarios.
use crate::designs::design;
use case_files::{Answers, asked};
use pals_base::{LinkNo, NoMemory, NodeNo, Text};
use pals_model::Design;
use pals_report::{add_entry, add_event_fault, add_scenario_fault};
use pals_runs::{Arrived, Cause, EventFault, EventSubject, JournalEntry, Stop};
use scenario_json::ScenarioFault;
use std::alloc::Global;
use std::io;

const A: NodeNo = NodeNo(0);

const B: NodeNo = NodeNo(1);
// The link into `p.a.i`, and that into `p.b.i`.
const TO_A: LinkNo = LinkNo(0);

const TO_B: LinkNo = LinkNo(1);

const LOST_MESSAGE: [JournalEntry; 11] = [
    JournalEntry::Start {
        node: A,
        round: 0,
        reading: None,
    },
    JournalEntry::Finish { node: A, round: 0 },
    JournalEntry::Send {
        node: A,
        round: 0,
        reading: None,
    },
    JournalEntry::Repeat {
        link: TO_A,
        round: 0,
    },
    JournalEntry::Arrive {
        link: TO_A,
        round: 0,
        reading: None,
        result: Arrived::Kept,
    },
    JournalEntry::Arrive {
        link: TO_A,
        round: 0,
        reading: None,
        result: Arrived::Ignored,
    },
    JournalEntry::Drop {
        link: TO_B,
        round: 0,
    },
    JournalEntry::Start {
        node: A,
        round: 1,
        reading: None,
    },
    JournalEntry::Stopped(Stop::Missed {
        link: TO_B,
        round: 0,
        reading: None,
        cause: Cause::Lost,
    }),
    JournalEntry::Arrive {
        link: TO_B,
        round: 0,
        reading: None,
        result: Arrived::Early,
    },
    JournalEntry::Stopped(Stop::Early {
        link: TO_B,
        round: 0,
        reading: None,
    }),
];

const TIMED: [JournalEntry; 6] = [
    JournalEntry::Start {
        node: B,
        round: 0,
        reading: Some(9_000_000),
    },
    JournalEntry::Step {
        node: B,
        round: 100_000,
        step: 63,
        reading: Some(576_460_752_303_423_488),
    },
    JournalEntry::Send {
        node: A,
        round: 7,
        reading: Some(0),
    },
    JournalEntry::Arrive {
        link: TO_B,
        round: 1,
        reading: Some(18_000_000),
        result: Arrived::Kept,
    },
    JournalEntry::Stopped(Stop::Missed {
        link: TO_B,
        round: 0,
        reading: Some(18_000_000),
        cause: Cause::InTransit,
    }),
    JournalEntry::Stopped(Stop::Missed {
        link: TO_A,
        round: 0,
        reading: Some(18_000_000),
        cause: Cause::NotSent,
    }),
];

fn journal(alloc: Global, design: &Design, entries: &[JournalEntry]) -> Result<Vec<u8>, NoMemory> {
    let mut text = Vec::new(alloc);
    for entry in entries {
        add_entry(&mut text, design, entry)?;
    }
    Ok(text)
}

const REFUSED_EVENTS: [(u32, EventFault); 13] = [
    (0, EventFault::BadName),
    (12, EventFault::LossOrRepeat),
    (1, EventFault::TimeBack { time: 8 }),
    (
        1,
        EventFault::ClockBack {
            node: B,
            reading: 7,
        },
    ),
    (
        0,
        EventFault::ClockApart {
            node: A,
            reading: 0,
        },
    ),
    (
        0,
        EventFault::PastDeadline {
            subject: EventSubject::Node(A),
            last: 9_999_999,
        },
    ),
    (
        4_294_967_295,
        EventFault::PastDeadline {
            subject: EventSubject::Message(TO_B, 3),
            last: 5,
        },
    ),
    (0, EventFault::WrongPhase { node: B }),
    (
        0,
        EventFault::NoSuchMessage {
            link: TO_B,
            round: 0,
        },
    ),
    (
        3,
        EventFault::NotDue {
            node: A,
            alarm: 10_000_000,
            reading: 9_000_000,
        },
    ),
    (
        7,
        EventFault::TooSoon {
            subject: EventSubject::Message(TO_B, 0),
            earliest: 10_000_001,
        },
    ),
    (
        8,
        EventFault::TooSoon {
            subject: EventSubject::Node(B),
            earliest: 1,
        },
    ),
    (9, EventFault::Memory),
];

fn refused_events(alloc: Global, design: &Design) -> Result<Vec<u8>, NoMemory> {
    let mut text = Vec::new(alloc);
    for (index, fault) in &REFUSED_EVENTS {
        add_event_fault(&mut text, design, *index, fault)?;
    }
    Ok(text)
}

// The faults of three scenarios, appended to the earlier text.
fn refused_scenarios(alloc: Global) -> Result<Vec<u8>, NoMemory> {
    let mut text = Vec::from_slice(alloc, b"before\n")?;
    let name = Text::from_str(alloc, "inputs/a goal/2")?;
    add_scenario_fault(&mut text, &ScenarioFault::NotJson)?;
    add_scenario_fault(&mut text, &ScenarioFault::WrongKind { name })?;
    add_scenario_fault(&mut text, &ScenarioFault::TooBig { cells: u64::MAX })?;
    Ok(text)
}

// The lines that a case asks for.
fn written(alloc: Global, design: &Design, asked: &str) -> Result<Vec<u8>, NoMemory> {
    match asked {
        "journal of a lost message" => journal(alloc, design, &LOST_MESSAGE),
        "journal with readings" => journal(alloc, design, &TIMED),
        "refused events" => refused_events(alloc, design),
        _ => refused_scenarios(alloc),
    }
}

/// Lines, where a design has the names of their nodes and links.
pub struct Lines;

impl Answers for Lines {
    fn answer(&self, rt: &HostRuntime, case: &str) -> io::Result<Vec<u8>> {
        let design = design(rt, "pair")?;
        Ok(written(rt.alloc(), &design, asked(case))?)
    }
}
