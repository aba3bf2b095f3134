//! Tests of the crates below the program. Texts: their tokens, trees, canonical texts and errors; packages: the first
//! wrong name, the declarations in use, containment and the number of threads. Behaviours: their compiled code, its
//! steps compared with the behaviour's, and worked code for the verifier and the machine. Scenarios: values that are
//! read and texts that are rejected, and the lines of journals and of rejections. The small crates, by worked rows.
#![tactic(auto)]

mod adaptors;
mod alarms_and_releases;
mod arguments;
mod behaviour_answers;
mod buffers;
mod clocks;
mod code_cases;
mod code_fixtures;
mod code_verification;
mod commands_from_words;
mod compiled_behaviours;
mod cycles_and_uses;
mod designs;
mod fault_lines;
mod first_name_faults;
mod journal_and_fault_lines;
mod least_periods_and_multiples;
mod package_answers;
mod parsed_behaviours;
mod scenario_answers;
mod scenario_predicates;
mod step_comparison;
mod step_outcomes;
mod streams;
mod text_answers;
mod thread_limit;
mod worked_rows;

use case_files::check;
use std::io;

const SCENARIO_TABLES: [&str; 9] = [
    "whole",
    "inputs",
    "events",
    "runs",
    "properties",
    "votes",
    "pairs",
    "sizes",
    "fields",
];

fn main(rt: HostRuntime) -> io::Result<()> {
    check(
        &rt,
        &text_answers::Texts,
        &["lexing", "reading", "printing", "sameness"],
    )?;
    check(
        &rt,
        &package_answers::Packages,
        &["names", "behaviours", "containment"],
    )?;
    check(
        &rt,
        &compiled_behaviours::Behaviours,
        &["code_sizes", "steps"],
    )?;
    check(&rt, &code_cases::Codes, &["codes"])?;
    check(&rt, &scenario_answers::Scenarios, &SCENARIO_TABLES)?;
    check(&rt, &journal_and_fault_lines::Lines, &["lines"])?;
    worked_rows::check_rows(&rt)
}
