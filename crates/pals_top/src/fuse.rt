//! The command `fuse`: the rounds in which plants answer their controllers within the step.
ghost use Rattle.pals_top.specs.AnalysisCommands.{Fuse};

use crate::analysis::ScenarioCommand;
use crate::answer::Answer;
use crate::execution::keeps_rules;
use analysis_texts::fuse;
use pals_base::{NoMemory, Text};
use pals_model::Design;
use pals_runs::Command;
use plant_fuse::laws::one_solution;
use scenario_json::Scenario;
use std::alloc::Global;

/// `fuse`, of whose scenario the root's inputs, the number of rounds and the plants count.
#[derive(Clone, Copy)]
pub struct FuseCommand;

impl ScenarioCommand for FuseCommand {
    ghost analysis = { λ _. Fuse };

    fn command(&self, root: Text) -> Command {
        Command::Fuse { root }
    }

    fn answer(self, alloc: Global, design: Design, scenario: Scenario) -> Result<Answer, NoMemory> {
        keeps_rules(&design);
        one_solution();
        let pairs = scenario.plants.as_slice();
        let text = fuse(alloc, design, &scenario.env, scenario.rounds, pairs)?;
        Ok(Answer::Done(text))
    }
}
