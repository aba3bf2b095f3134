//! Series of cases: one case that is repeated, with its bundle cut, with a call that fails, or with an event omitted,
//! each in turn. A line `each WHAT` in a case states which, and the answer is one line for consecutive numbers with the
//! same status and first line:
//!
//! - `each cut`: the first bytes of the bundle, from none to all. A line `behind TEXT` appends TEXT to each, on a line
//!   of its own.
//! - `each read SIZE`: the source gives SIZE bytes a call, and one call fails: the first, the second, up to the end.
//! - `each write`: the sink takes 8 bytes a call, and one call fails.
//! - `each event`: the bundle's events are in the case, each on a line `event EVENT`, and one is omitted: the first,
//!   the second, and at last none.
//! - `each trace`: one run, with its rows and stop, and the answer of `audit` to its whole output.
//! - `each starter`: a run of four nodes, with threads for all of them, for all but one, and for none.
//! - `each slow`: one run in which the first job of node 1 is slow.
//!
//! In the answer `END` is the position of the end of the bundle, `_` is another position, and `..` stands for the first
//! bytes of the answer, 8 for each write that did not fail.
use crate::answer_ranges::AnswerRanges;
use crate::audited_runs::run_and_audit;
use crate::program_answer::{ProgramAnswer, Transfer, ask};
use crate::scheduled_runs::{answer_slow_job, answer_starters};
use case_files::{asked, text_of, word};
use pals_top::status::{READ_FAULT, WRITE_FAULT};
use std::alloc::Global;
use std::io;
use std::sync::Wait;
use std::thread::Threads;

// No series has more numbers than this.
const MOST: u64 = 10_000;

// How many bytes a source gives at once, if a series does not specify it.
const PIECE: usize = 4096;

/// The answers to a series.
pub fn answer_series<R: Threads + Wait + Sync>(
    threads: &R,
    rt: &HostRuntime,
    case: &str,
) -> io::Result<Vec<u8>> {
    match word(case, "each").split_once(' ') {
        Some(("read", size)) => reads(threads, rt, case, size.parse().unwrap_or(PIECE)),
        _ => match word(case, "each") {
            "cut" => cuts(threads, rt, case),
            "write" => writes(threads, rt, case),
            "trace" => run_and_audit(threads, rt, case),
            "starter" => answer_starters(threads, rt, case),
            "slow" => answer_slow_job(threads, rt, case),
            _ => events(threads, rt, case),
        },
    }
}

fn cuts<R: Threads + Wait + Sync>(
    threads: &R,
    rt: &HostRuntime,
    case: &str,
) -> io::Result<Vec<u8>> {
    let alloc = rt.alloc();
    let bundle = text_of(rt, case)?;
    let mut ranges = AnswerRanges::new(alloc);
    let bytes = bundle.as_slice();
    for length in 0..bytes.len() {
        add_cut(threads, rt, &mut ranges, case, &bytes[..length])?;
    }
    add_cut(threads, rt, &mut ranges, case, bytes)?;
    ranges.text()
}

// Adds the answer to the first bytes of a bundle.
fn add_cut<R: Threads + Wait + Sync>(
    threads: &R,
    rt: &HostRuntime,
    ranges: &mut AnswerRanges,
    case: &str,
    cut: &[u8],
) -> io::Result<()> {
    let alloc = rt.alloc();
    let mut bundle = Vec::new(alloc);
    bundle.extend_from_slice(cut)?;
    let behind = word(case, "behind");
    if !behind.is_empty() {
        bundle.extend_from_slice(b"\n")?;
        bundle.extend_from_slice(behind.as_bytes())?;
    }
    let asked = ask(threads, alloc, asked(case), bundle, Transfer::whole(PIECE))?;
    ranges.add(alloc, cut.len() as u64, &asked)
}

fn reads<R: Threads + Wait + Sync>(
    threads: &R,
    rt: &HostRuntime,
    case: &str,
    size: usize,
) -> io::Result<Vec<u8>> {
    let alloc = rt.alloc();
    let mut ranges = AnswerRanges::new(alloc);
    for call in 1..MOST {
        let transfer = Transfer {
            size,
            failing_read: call,
            failing_write: 0,
        };
        let asked = ask(threads, alloc, asked(case), text_of(rt, case)?, transfer)?;
        ranges.add(alloc, call, &asked)?;
        if asked.status != READ_FAULT {
            break;
        }
    }
    ranges.text()
}

fn writes<R: Threads + Wait + Sync>(
    threads: &R,
    rt: &HostRuntime,
    case: &str,
) -> io::Result<Vec<u8>> {
    let alloc = rt.alloc();
    let whole = ask(
        threads,
        alloc,
        asked(case),
        text_of(rt, case)?,
        Transfer::whole(PIECE),
    )?;
    let mut ranges = AnswerRanges::new(alloc);
    for call in 1..MOST {
        let transfer = Transfer {
            size: PIECE,
            failing_read: 0,
            failing_write: call,
        };
        let mut asked = ask(threads, alloc, asked(case), text_of(rt, case)?, transfer)?;
        let over = asked.status != WRITE_FAULT;
        if !over && is_first_part(&asked, &whole, call) {
            asked.text.clear();
            asked.text.extend_from_slice(b"..\n")?;
        }
        ranges.add(alloc, call, &asked)?;
        if over {
            break;
        }
    }
    ranges.text()
}

// Whether the bytes written before a call are the first bytes of the whole answer, 8 a call.
fn is_first_part(asked: &ProgramAnswer, whole: &ProgramAnswer, call: u64) -> bool {
    let bytes = call.saturating_sub(1).saturating_mul(8);
    asked.text.len() as u64 == bytes && whole.text.starts_with(asked.text.as_slice())
}

fn events<R: Threads + Wait + Sync>(
    threads: &R,
    rt: &HostRuntime,
    case: &str,
) -> io::Result<Vec<u8>> {
    let alloc = rt.alloc();
    let mut ranges = AnswerRanges::new(alloc);
    let count = count_events(case);
    for left_out in 0..count {
        add_without(threads, rt, &mut ranges, case, left_out)?;
    }
    add_without(threads, rt, &mut ranges, case, count)?;
    ranges.text()
}

// How many events a case has.
fn count_events(case: &str) -> usize {
    let mut count = 0_usize;
    for line in case.lines() {
        if line.starts_with("event ") {
            count = count.saturating_add(1);
        }
    }
    count
}

// Appends the answer if the event of this number is omitted, if there is one.
fn add_without<R: Threads + Wait + Sync>(
    threads: &R,
    rt: &HostRuntime,
    ranges: &mut AnswerRanges,
    case: &str,
    left_out: usize,
) -> io::Result<()> {
    let alloc = rt.alloc();
    let shorter = without(alloc, case, left_out)?;
    let bundle = text_of(rt, shorter.as_str())?;
    let asked = ask(threads, alloc, asked(case), bundle, Transfer::whole(PIECE))?;
    ranges.add(alloc, left_out as u64, &asked)
}

// The case with its events as parts of its bundle, without that of a number.
fn without(alloc: Global, case: &str, left_out: usize) -> io::Result<String> {
    let mut text = String::new(alloc);
    let (mut number, mut kept) = (0_usize, 0_usize);
    for line in case.lines() {
        match line.strip_prefix("event ") {
            None => write!(text, "{line}\n")?,
            Some(event) => {
                if number != left_out && kept == 0 {
                    write!(text, "part {event}\n")?;
                } else if number != left_out {
                    write!(text, "part ,{event}\n")?;
                }
                kept = if number == left_out { kept } else { 1 };
                number = number.saturating_add(1);
            }
        }
    }
    Ok(text)
}
