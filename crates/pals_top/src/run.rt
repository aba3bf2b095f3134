//! The command `run`: the nodes in threads. It is the one command that is given the program's host.
ghost use Rattle.std.specs.Prelude.{IfOk, OnErr};
ghost use Rattle.pals_bus.specs.proof.StepCodesOfNodes.{AreCodes};
ghost use Rattle.pals_io.specs.SourcesAndSinks.{GivesWithin};
ghost use Rattle.pals_runs.specs.declared.commands.Command.TheVariants as command;
ghost use Rattle.scenario_json.specs.proof.ScenarioValidity.{IsScenarioOf};
ghost use Rattle.pals_top.specs.ExecutionCommands.{Run};
ghost use Rattle.pals_top.specs.Answers.{IsSourceAnswer};
ghost use Rattle.pals_top.specs.ProgramInput.{reading};
ghost use Rattle.pals_top.specs.Run.{IsRunAnswer};
ghost use Rattle.pals_top.specs.proof.StatusAndText.{status_of, text_of};

use crate::answer::Answer;
use crate::bundle_meaning::{BundleMeaning, Coded, CodedCommand, meaning_of};
use crate::opening_bus::opened;
use node_threads::{Gate, Host, Starter, run_threads};
use pals_base::limits::BUNDLE_BYTES;
use pals_base::{NoMemory, Text};
use pals_clock::Clocks;
use pals_io::{ReadEnd, Source, read_all};
use pals_runs::Command;
use run_texts::{RunReport, tell_run};
use scenario_json::Scenario;
use std::alloc::{AllocError, Global};
use std::sync::Wait;
use std::thread::Threads;

// `run`, with its journal if a trace is requested. Only the root's inputs, the number of rounds, the clocks and the
// delays of the scenario matter.
#[derive(Clone, Copy)]
struct RunCommand {
    trace: bool,
}

impl CodedCommand for RunCommand {
    ghost execution = { λ command. Run command.trace };

    fn command(&self, root: Text) -> Command {
        Command::Run {
            root,
            trace: self.trace,
        }
    }
}

/// The answer of `run` to the bytes of a source, with the journal if a trace is requested.
pub fn answer_run<R: Threads + Wait + Sync, S: Source, W: Starter, G: Gate + Sync>(
    host: Host<'_, R, W, G>,
    alloc: Global,
    source: &mut S,
    root: Text,
    trace: bool,
) -> Result<Answer, NoMemory>
    ensures ok { IfOk result (λ answer. IsSourceAnswer (command.Run root trace)
        (reading (S.shown source.old) (S.shown source.new)) (status_of answer) (text_of answer)) }
    ensures err { OnErr result (GivesWithin (S.shown source.old) (S.shown source.new) BUNDLE_BYTES) }
{
    let bundle = match read_all(alloc, source, BUNDLE_BYTES) {
        Ok(bundle) => bundle,
        Err(ReadEnd::ReadFault) => return Ok(Answer::ReadFault),
        Err(ReadEnd::TooLong) => return Ok(Answer::TooLong),
        Err(ReadEnd::Memory) => return Err(AllocError),
    };
    let command = RunCommand { trace };
    match meaning_of(alloc, bundle.as_slice(), root, &command)? {
        BundleMeaning::Coded(coded) => run_nodes(host, alloc, coded, trace),
        BundleMeaning::Refused(answer) => Ok(answer),
    }
}

// The outcome of the nodes of a design in threads, each by its clock of the scenario.
fn run_nodes<R: Threads + Wait + Sync, W: Starter, G: Gate + Sync>(
    host: Host<'_, R, W, G>,
    alloc: Global,
    coded: Coded,
    trace: bool,
) -> Result<Answer, NoMemory>
    requires codes { AreCodes coded.design coded.codes }
    requires kept { IsScenarioOf coded.design coded.scenario }
    ensures { IfOk result (λ answer. IsRunAnswer coded.design coded.scenario trace (status_of answer)
        (text_of answer)) }
{
    let Coded {
        design,
        codes,
        scenario,
    } = coded;
    let Scenario {
        rounds,
        env,
        clocks,
        delays,
        ..
    } = scenario;
    let meeting = matches!(clocks, Clocks::Meet);
    let bus = opened(alloc, design, codes, env, rounds, delays, meeting)?;
    let end = run_threads(host, alloc, bus, clocks)?;
    match tell_run(alloc, &end, trace)? {
        RunReport::Completed(text) => Ok(Answer::Done(text)),
        RunReport::Stopped(text) => Ok(Answer::Stopped(text)),
        RunReport::ClockEnded(text) => Ok(Answer::ClockEnded(text)),
    }
}
