//! Cases of behaviours, with their compiled code, its length and weight, or how its steps differ from the
//! behaviour's.
use crate::parsed_behaviours::behaviour;
use crate::step_comparison::compared;
use case_files::{Answers, asked, text_of};
use pals_base::{Behaviour, NoMemory};
use std::alloc::Global;
use std::io;
use step_code::{Code, most};
use step_compiler::compile;

// The instructions of a code, each in a line.
fn listed(alloc: Global, code: &Code) -> Result<String, NoMemory> {
    let mut lines = String::new(alloc);
    for instr in code.parts().instrs.as_slice() {
        writeln!(lines, "{instr:?}")?;
    }
    Ok(lines)
}

fn size(alloc: Global, code: &Code) -> Result<String, NoMemory> {
    let length = code.parts().instrs.len();
    let weight = most(code);
    format!(in alloc; "length {length}, weight {weight}\n")
}

// What is asked of the code of a behaviour.
fn told(
    alloc: Global,
    asked: &str,
    behaviour: &Behaviour,
    code: &Code,
) -> Result<String, NoMemory> {
    match asked {
        "code" => listed(alloc, code),
        "size" => size(alloc, code),
        "steps from 2" => compared(alloc, behaviour, code, 2),
        _ => compared(alloc, behaviour, code, 0),
    }
}

fn compiled(alloc: Global, asked: &str, behaviour: &Behaviour) -> Result<String, NoMemory> {
    match compile(alloc, behaviour) {
        Ok(code) => told(alloc, asked, behaviour, &code),
        Err(fault) => format!(in alloc; "{fault:?}\n"),
    }
}

// What is asked of the first behaviour in a text.
fn found(alloc: Global, asked: &str, text: &[u8]) -> Result<String, NoMemory> {
    match behaviour(alloc, text)? {
        Some(behaviour) => compiled(alloc, asked, &behaviour),
        None => String::from_str(alloc, "no behaviour\n"),
    }
}

/// The code of behaviours.
pub struct Behaviours;

impl Answers for Behaviours {
    fn answer(&self, rt: &HostRuntime, case: &str) -> io::Result<Vec<u8>> {
        let text = text_of(rt, case)?;
        Ok(found(rt.alloc(), asked(case), text.as_slice())?.into_bytes())
    }
}
