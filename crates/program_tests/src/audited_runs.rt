//! Runs in threads whose journals depend on the schedule: their output under each, and the answer of an audit to
//! it.
use crate::program_answer::{Transfer, ask};
use case_files::{asked, text_of};
use std::alloc::Global;
use std::io;
use std::sync::Wait;
use std::thread::Threads;

// The first words of the lines of a journal that depend on the schedule.
const STEPS: [&str; 5] = ["arrive", "start", "step", "finish", "send"];

/// The status of a run with its rows and its stop, and then what `audit` answers to its whole text as a trace.
pub fn run_and_audit<R: Threads + Wait + Sync>(
    threads: &R,
    rt: &HostRuntime,
    case: &str,
) -> io::Result<Vec<u8>> {
    let alloc = rt.alloc();
    let run = ask(
        threads,
        alloc,
        asked(case),
        text_of(rt, case)?,
        Transfer::whole(4096),
    )?;
    let text = std::str::from_utf8(run.text.as_slice()).unwrap_or("no text");
    let mut answer = format!(in alloc; "{}\n", run.status)?;
    for line in text.lines() {
        if !is_step(line) {
            write!(answer, "{line}\n")?;
        }
    }
    let bundle = with_trace(alloc, text_of(rt, case)?.as_slice(), text)?;
    let audit = ask(
        threads,
        alloc,
        "audit Top.impl",
        bundle,
        Transfer::whole(4096),
    )?;
    let verdict = std::str::from_utf8(audit.text.as_slice()).unwrap_or("no text");
    write!(answer, "{}\n{verdict}", audit.status)?;
    Ok(answer.into_bytes())
}

fn is_step(line: &str) -> bool {
    let first = line.split_whitespace().next().unwrap_or("");
    STEPS.iter().any(|step| *step == first)
}

// The bundle with the lines of a text as the trace of its scenario, which ends with `}` and a line end.
fn with_trace(alloc: Global, bundle: &[u8], text: &str) -> io::Result<Vec<u8>> {
    let bundle = std::str::from_utf8(bundle).unwrap_or("");
    let front = bundle.trim_end().strip_suffix("}").unwrap_or("");
    let mut traced = format!(in alloc; "{front},\"trace\":[")?;
    for (index, line) in text.lines().enumerate() {
        if index != 0 {
            traced.push(',')?;
        }
        write!(traced, "\"{line}\"")?;
    }
    traced.push_str("]}\n")?;
    Ok(traced.into_bytes())
}
