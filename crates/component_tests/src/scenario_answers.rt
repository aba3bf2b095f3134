//! What becomes of a scenario: the line of its fault, or `read`.
use crate::commands_from_words::command;
use crate::designs::design;
use crate::scenario_predicates::holds;
use case_files::{Answers, asked, text_of, word};
use pals_base::NoMemory;
use pals_report::add_scenario_fault;
use scenario_json::{Scenario, ScenarioFault, read_scenario};
use std::alloc::Global;
use std::io;
use std::io::ErrorKind::InvalidData;

/// Scenarios, each of a design and for a command.
pub struct Scenarios;

impl Answers for Scenarios {
    fn answer(&self, rt: &HostRuntime, case: &str) -> io::Result<Vec<u8>> {
        let (name, words) = asked(case).split_once(' ').ok_or(InvalidData)?;
        let answer = match scenario(rt, name, words, case)? {
            Ok(read) => read_line(rt.alloc(), holds(&read, word(case, "holds"))),
            Err(fault) => fault_line(rt.alloc(), &fault),
        };
        Ok(answer?)
    }
}

fn scenario(
    rt: &HostRuntime,
    name: &str,
    words: &str,
    case: &str,
) -> io::Result<Result<Scenario, ScenarioFault>> {
    let text = text_of(rt, case)?;
    let design = design(rt, name)?;
    let command = command(rt.alloc(), words)?;
    Ok(read_scenario(rt.alloc(), text.as_slice(), &design, command))
}

fn read_line(alloc: Global, holds: bool) -> Result<Vec<u8>, NoMemory> {
    let line = if holds {
        "read\n"
    } else {
        "read with other fields\n"
    };
    line.as_bytes().to_vec(alloc)
}

fn fault_line(alloc: Global, fault: &ScenarioFault) -> Result<Vec<u8>, NoMemory> {
    let mut line = Vec::new(alloc);
    add_scenario_fault(&mut line, fault)?;
    Ok(line)
}
