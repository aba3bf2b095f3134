//! What a bundle means to a command that needs step codes: a design, its codes and a scenario.
ghost use Rattle.std.specs.Prelude.{◌≡◌, ◌++◌, IfOk};
ghost use Rattle.pals_model.specs.RoundTexts.{line_end};
ghost use Rattle.pals_top.specs.declared.status.TheConstants.{CODE_TOO_LONG};
ghost use Rattle.pals_top.specs.ExecutionCommands.{Execution};
ghost use Rattle.pals_top.specs.ExecutionAnswers.{overlong_code_line, command_of};
ghost use Rattle.pals_top.specs.proof.BundlesWithCodes.{IsMeaning};
ghost use Rattle.pals_top.specs.proof.StatusAndText.{Says};

use crate::answer::Answer;
use crate::refused_scenario::refused_scenario;
use bundle_designs::accept;
use design_codes::{CodesError, compile_all};
use pals_base::{ItemList, NoMemory, NodeNo, Text};
use pals_model::Design;
use pals_report::add_overlong_code;
use pals_runs::Command;
use scenario_json::{Scenario, read_scenario};
use scenario_laws::event_and_trace_laws::{events_are_few, events_are_loose, traces_are_few};
use std::alloc::{AllocError, Global};
use step_code::Code;

/// A command that needs a design, its step codes and a scenario.
pub trait CodedCommand {
    // What it makes of them.
    ghost execution: { Self → Execution };

    /// The command below a root, as a scenario is read for it.
    fn command(&self, root: Text) -> Command
        ensures { result ≡ command_of (execution self.now) root };
}

/// A design with its step codes, and a scenario for it.
#[derive(Drop)]
pub struct Coded {
    pub design: Design,
    pub codes: ItemList<Code>,
    pub scenario: Scenario,
}

/// What a bundle means to a command.
#[derive(Drop)]
pub enum BundleMeaning {
    /// What the command is made of.
    Coded(Coded),
    /// The answer that reports why there is no such thing.
    Refused(Answer),
}

/// What a bundle means to a command below a root. The codes come before the scenario.
pub fn meaning_of<C: CodedCommand>(
    alloc: Global,
    bundle: &[u8],
    root: Text,
    command: &C,
) -> Result<BundleMeaning, NoMemory>
    ensures { IfOk result (IsMeaning (C.execution command.now) root bundle.now) }
{
    events_are_loose();
    events_are_few();
    traces_are_few();
    let accepted = match accept(alloc, bundle, &root) {
        Ok(accepted) => accepted,
        Err(refusal) => return Ok(BundleMeaning::Refused(Answer::refused(refusal)?)),
    };
    let codes = match compile_all(alloc, &accepted.design) {
        Ok(codes) => codes,
        Err(CodesError::TooLong { node, length }) => {
            let answer = code_too_long(alloc, &accepted.design, node, length)?;
            return Ok(BundleMeaning::Refused(answer));
        }
        Err(CodesError::Memory) => return Err(AllocError),
    };
    let job = command.command(root);
    match read_scenario(alloc, accepted.scenario, &accepted.design, job) {
        Ok(scenario) => Ok(BundleMeaning::Coded(Coded {
            design: accepted.design,
            codes,
            scenario,
        })),
        Err(fault) => Ok(BundleMeaning::Refused(refused_scenario(alloc, &fault)?)),
    }
}

// The answer to a design with a component whose code is too long.
fn code_too_long(
    alloc: Global,
    design: &Design,
    node: NodeNo,
    length: u64,
) -> Result<Answer, NoMemory>
    ensures { IfOk result (Says CODE_TOO_LONG (overlong_code_line design.now node.0 length ++ line_end)) }
{
    let mut line = Vec::new(alloc);
    add_overlong_code(&mut line, design, node, length)?;
    Ok(Answer::CodeTooLong(line))
}
