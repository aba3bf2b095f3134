//! The command `vote`: the rounds with replicas of some components, whose messages are voted on.
ghost use Rattle.pals_top.specs.AnalysisCommands.{Vote};

use crate::analysis::ScenarioCommand;
use crate::answer::Answer;
use analysis_texts::vote;
use pals_base::{NoMemory, Text};
use pals_model::Design;
use pals_runs::Command;
use scenario_json::Scenario;
use std::alloc::Global;

/// `vote`, of whose scenario the root's inputs, the number of rounds, the replicas and their faults count.
#[derive(Clone, Copy)]
pub struct VoteCommand;

impl ScenarioCommand for VoteCommand {
    ghost analysis = { λ _. Vote };

    fn command(&self, root: Text) -> Command {
        Command::Vote { root }
    }

    fn answer(self, alloc: Global, design: Design, scenario: Scenario) -> Result<Answer, NoMemory> {
        let Scenario {
            rounds,
            env,
            replicas,
            faults,
            ..
        } = scenario;
        let text = vote(alloc, design, &env, rounds, replicas.as_slice(), faults)?;
        Ok(Answer::Done(text))
    }
}
