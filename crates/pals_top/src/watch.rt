//! The command `watch`: the values of properties in each round.
ghost use Rattle.std.specs.Prelude.{IfOk};
ghost use Rattle.pals_top.specs.AnalysisCommands.{Watch};
ghost use Rattle.pals_top.specs.Watch.{IsWatched};
ghost use Rattle.pals_top.specs.proof.StatusAndText.{status_of, text_of};

use crate::analysis::ScenarioCommand;
use crate::answer::Answer;
use analysis_texts::watch;
use pals_base::{NoMemory, Text};
use pals_model::Design;
use pals_runs::Command;
use scenario_json::Scenario;
use std::alloc::Global;

/// `watch`, of whose scenario the root's inputs, the number of rounds and the properties count.
#[derive(Clone, Copy)]
pub struct WatchCommand;

impl ScenarioCommand for WatchCommand {
    ghost analysis = { λ _. Watch };

    fn command(&self, root: Text) -> Command {
        Command::Watch { root }
    }

    fn answer(self, alloc: Global, design: Design, scenario: Scenario) -> Result<Answer, NoMemory> {
        answer_watch(alloc, design, &scenario)
    }
}

// The values of the properties of a scenario in each round.
fn answer_watch(alloc: Global, design: Design, scenario: &Scenario) -> Result<Answer, NoMemory>
    ensures { IfOk result (λ answer. IsWatched design scenario.now (status_of answer) (text_of answer)) }
{
    let properties = scenario.properties.as_slice();
    let watched = watch(alloc, design, &scenario.env, scenario.rounds, properties)?;
    Ok(Answer::judged(watched.text, !watched.violated))
}
