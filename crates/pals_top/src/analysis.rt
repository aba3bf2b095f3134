//! The common part of all commands that need a design and a scenario, without step codes.
ghost use Rattle.std.specs.Prelude.{◌≡◌, IfOk};
ghost use Rattle.scenario_json.specs.proof.ScenarioValidity.{IsScenarioOf};
ghost use Rattle.plant_fuse.specs.FusedComposition.{ArePairs};
ghost use Rattle.pals_top.specs.AnalysisCommands.{Analysis};
ghost use Rattle.pals_top.specs.AnalysisAnswers.{command_of, Makes, IsAnalysisAnswer};
ghost use Rattle.pals_top.specs.proof.StatusAndText.{status_of, text_of};

use crate::answer::Answer;
use crate::refused_scenario::refused_scenario;
use bundle_designs::accept;
use pals_base::{NoMemory, Text};
use pals_model::Design;
use pals_runs::Command;
use scenario_json::{Scenario, read_scenario};
use scenario_laws::plant_laws::pairs_can_be_fused;
use std::alloc::Global;

/// A command that needs a design and a scenario.
pub trait ScenarioCommand {
    // What it makes of them.
    ghost analysis: { Self → Analysis };

    /// The command below a root, as a scenario is read for it.
    fn command(&self, root: Text) -> Command
        ensures { result ≡ command_of (analysis self.now) root };

    /// The answer to a design and a scenario of it.
    fn answer(self, alloc: Global, design: Design, scenario: Scenario) -> Result<Answer, NoMemory>
        requires kept { IsScenarioOf design scenario }
        requires pairs { ArePairs design scenario.plants }
        ensures { IfOk result (λ answer. Makes (analysis self) design scenario (status_of answer) (text_of answer)) };
}

/// The answer to a bundle: what the command makes of the design and the scenario that it means.
pub fn answer_analysis<C: ScenarioCommand + Drop>(
    alloc: Global,
    bundle: &[u8],
    root: Text,
    command: C,
) -> Result<Answer, NoMemory>
    ensures { IfOk result (λ answer. IsAnalysisAnswer (C.analysis command) root bundle.now (status_of answer)
        (text_of answer)) }
{
    pairs_can_be_fused();
    let accepted = match accept(alloc, bundle, &root) {
        Ok(accepted) => accepted,
        Err(refusal) => return Answer::refused(refusal),
    };
    let job = command.command(root);
    match read_scenario(alloc, accepted.scenario, &accepted.design, job) {
        Ok(scenario) => command.answer(alloc, accepted.design, scenario),
        Err(fault) => refused_scenario(alloc, &fault),
    }
}
