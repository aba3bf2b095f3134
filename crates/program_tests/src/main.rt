//! The program's answers to arguments and bytes, over sources and sinks in memory that fail at planned calls.
#![tactic(auto)]

mod answer_ranges;
mod audited_runs;
mod case_variations;
mod meeting_gate;
mod program_answer;
mod ring_text_reports;
mod scheduled_runs;
mod slow_gate;

use case_files::{asked, check_answer, text_of, word};
use case_variations::answer_series;
use program_answer::{Transfer, ask};
use ring_text_reports::check_ring;
use std::sync::Wait;
use std::thread::Threads;
use std::{fs, io};

const FILES: [&str; 14] = [
    "commands",
    "checks",
    "refused_texts",
    "rounds",
    "print",
    "worlds",
    "analyses",
    "timed",
    "hostile",
    "left_out",
    "runs",
    "audits",
    "mutants",
    "examples",
];

// The status of the answer to a case, and its text.
fn answer<R: Threads + Wait + Sync>(
    threads: &R,
    rt: &HostRuntime,
    case: &str,
) -> io::Result<Vec<u8>> {
    if !word(case, "each").is_empty() {
        return answer_series(threads, rt, case);
    }
    let transfer = Transfer {
        size: 4096,
        failing_read: word(case, "failing-read").parse().unwrap_or(0),
        failing_write: word(case, "failing-write").parse().unwrap_or(0),
    };
    let bundle = text_of(rt, case)?;
    let alloc = rt.alloc();
    let asked = ask(threads, alloc, asked(case), bundle, transfer)?;
    asked.lines(alloc)
}

// Writes of each case in the file of this name whether the program answers it right.
fn check_file<R: Threads + Wait + Sync>(
    threads: &R,
    rt: &HostRuntime,
    name: &str,
) -> io::Result<()> {
    let file = format!(in rt.alloc(); "{name}.cases")?;
    let cases = fs::read_to_string(rt, file)?;
    for (index, case) in cases.as_str().split("\n\n").enumerate() {
        let answer = answer(threads, rt, case)?;
        check_answer(rt, name, index.saturating_add(1), case, answer.as_slice())?;
    }
    Ok(())
}

fn main(rt: HostRuntime) -> io::Result<()> {
    for name in FILES {
        check_file(&rt, &rt, name)?;
    }
    check_ring(&rt, &rt, 3)?;
    check_ring(&rt, &rt, 256)
}
