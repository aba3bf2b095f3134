//! Runs under several starters and gates. With threads for all nodes of a design of four, their first jobs have to run at
//! the same time. A run without threads for some or all nodes prints the same text, and so does one with a slow job.
use crate::meeting_gate::MeetingGate;
use crate::program_answer::{ProgramAnswer, Transfer, ask, ask_on};
use crate::slow_gate::SlowGate;
use case_files::{asked, text_of};
use node_threads::{FakeStarter, Host, NoGate, ThreadStarter};
use pals_base::{ItemList, NodeNo};
use std::io;
use std::sync::Wait;
use std::thread::Threads;

// The nodes that a starter refuses, with their name in the answer.
const REFUSALS: [(&str, &[NodeNo]); 5] = [
    ("node 0", &[NodeNo(0)]),
    ("node 1", &[NodeNo(1)]),
    ("node 2", &[NodeNo(2)]),
    ("node 3", &[NodeNo(3)]),
    ("all nodes", &[NodeNo(0), NodeNo(1), NodeNo(2), NodeNo(3)]),
];

/// The answers of a run, a line for each starter: whether its status and text are `sync`'s for the same bundle.
pub fn answer_starters<R: Threads + Wait + Sync>(
    threads: &R,
    rt: &HostRuntime,
    case: &str,
) -> io::Result<Vec<u8>> {
    let alloc = rt.alloc();
    let bundle = text_of(rt, case)?;
    let rounds = ask(
        threads,
        alloc,
        "sync Top.impl",
        bundle,
        Transfer::whole(4096),
    )?;
    let mut answer = String::new(alloc);
    let meeting = if jobs_meet(threads, rt, case, &rounds)? {
        "the first jobs met"
    } else {
        "the first jobs did not meet"
    };
    write!(answer, "no thread refused: {meeting}\n")?;
    for (name, refused) in &REFUSALS {
        let found = if refused_starts_do_not_show(threads, rt, case, refused, &rounds)? {
            "the text of sync"
        } else {
            "another text"
        };
        write!(answer, "{name} refused: {found}\n")?;
    }
    Ok(answer.into_bytes())
}

// Returns whether the first jobs of all four nodes run at the same time, and the text is that of `sync`.
fn jobs_meet<R: Threads + Wait + Sync>(
    threads: &R,
    rt: &HostRuntime,
    case: &str,
    rounds: &ProgramAnswer,
) -> io::Result<bool> {
    let gate = MeetingGate::new();
    let host = Host {
        runtime: threads,
        starter: &mut ThreadStarter,
        gate: &gate,
    };
    let bundle = text_of(rt, case)?;
    let run = ask_on(host, rt.alloc(), asked(case), bundle, Transfer::whole(4096))?;
    Ok(is_same(&run, rounds) && gate.all_met())
}

// Returns whether the text is that of `sync` if these nodes get no threads.
fn refused_starts_do_not_show<R: Threads + Wait + Sync>(
    threads: &R,
    rt: &HostRuntime,
    case: &str,
    refused: &[NodeNo],
    rounds: &ProgramAnswer,
) -> io::Result<bool> {
    let alloc = rt.alloc();
    let host = Host {
        runtime: threads,
        starter: &mut FakeStarter::new(ItemList::from_slice(alloc, refused)?),
        gate: &NoGate,
    };
    let bundle = text_of(rt, case)?;
    let run = ask_on(host, alloc, asked(case), bundle, Transfer::whole(4096))?;
    Ok(is_same(&run, rounds))
}

fn is_same(one: &ProgramAnswer, other: &ProgramAnswer) -> bool {
    one.status == other.status && one.text.as_slice() == other.text.as_slice()
}

/// The answer of a run in which the first job of node 1 is slow.
pub fn answer_slow_job<R: Threads + Wait + Sync>(
    threads: &R,
    rt: &HostRuntime,
    case: &str,
) -> io::Result<Vec<u8>> {
    let host = Host {
        runtime: threads,
        starter: &mut ThreadStarter,
        gate: &SlowGate::new(NodeNo(1)),
    };
    let bundle = text_of(rt, case)?;
    let run = ask_on(host, rt.alloc(), asked(case), bundle, Transfer::whole(4096))?;
    run.lines(rt.alloc())
}
