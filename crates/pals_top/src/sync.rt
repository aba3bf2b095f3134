//! The command `sync`: the rounds of the synchronous composition.
ghost use Rattle.pals_top.specs.AnalysisCommands.{Sync};

use crate::analysis::ScenarioCommand;
use crate::answer::Answer;
use analysis_texts::report;
use pals_base::{NoMemory, Text};
use pals_model::Design;
use pals_runs::Command;
use scenario_json::Scenario;
use std::alloc::Global;

/// `sync`, of whose scenario the root's inputs and the number of rounds count.
#[derive(Clone, Copy)]
pub struct SyncCommand;

impl ScenarioCommand for SyncCommand {
    ghost analysis = { λ _. Sync };

    fn command(&self, root: Text) -> Command {
        Command::Sync { root }
    }

    fn answer(self, alloc: Global, design: Design, scenario: Scenario) -> Result<Answer, NoMemory> {
        let text = report(alloc, design, &scenario.env, scenario.rounds)?;
        Ok(Answer::Done(text))
    }
}
