//! The command `world`: what a list of timed events within the bounds leaves.
ghost use Rattle.std.specs.Prelude.{◌≤◌, length, IfOk};
ghost use Rattle.pals_base.specs.declared.limits.TheConstants.{LIST_ITEMS};
ghost use Rattle.pals_bus.specs.proof.StepCodesOfNodes.{AreCodes};
ghost use Rattle.scenario_json.specs.proof.ScenarioValidity.{IsScenarioOf};
ghost use Rattle.pals_top.specs.ExecutionCommands.{TimedWorld};
ghost use Rattle.pals_top.specs.TimedWorlds.{IsTimedAnswer};
ghost use Rattle.pals_top.specs.proof.StatusAndText.{status_of, text_of};

use crate::answer::Answer;
use crate::bundle_meaning::{Coded, CodedCommand};
use crate::execution::ExecutionCommand;
use crate::refused_scenario::refused_event;
use pals_base::{ItemList, NoMemory, Text};
use pals_model::Design;
use pals_runs::Command;
use scenario_json::Scenario;
use std::alloc::Global;
use std::sync::Arc;
use step_code::Code;
use world_texts::{WorldReport, tell_world};

/// `world`, of whose scenario the root's inputs, the number of rounds and the events count.
#[derive(Clone, Copy)]
pub struct WorldCommand;

impl CodedCommand for WorldCommand {
    ghost execution = { λ _. TimedWorld };

    fn command(&self, root: Text) -> Command {
        Command::World { root, loose: false }
    }
}

impl ExecutionCommand for WorldCommand {
    fn answer(self, alloc: Global, coded: Coded) -> Result<Answer, NoMemory> {
        let Coded {
            design,
            codes,
            scenario,
        } = coded;
        answer_world(alloc, design, codes, scenario)
    }
}

// What the events of a scenario leave, or the first that is past the bounds.
fn answer_world(
    alloc: Global,
    design: Design,
    codes: ItemList<Code>,
    scenario: Scenario,
) -> Result<Answer, NoMemory>
    requires codes { AreCodes design codes }
    requires kept { IsScenarioOf design scenario }
    requires few { length scenario.events ≤ LIST_ITEMS }
    ensures { IfOk result (λ answer. IsTimedAnswer design scenario (status_of answer) (text_of answer)) }
{
    let design = Arc::new(alloc, design)?;
    let Scenario {
        rounds,
        env,
        events,
        ..
    } = scenario;
    let named = Arc::try_clone(&design)?;
    match tell_world(alloc, design, codes, env, rounds, events.as_slice())? {
        WorldReport::Whole(text) => Ok(Answer::Done(text)),
        WorldReport::Refused { index, fault } => refused_event(alloc, &named, index, &fault),
    }
}
