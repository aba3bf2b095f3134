//! The command `budget`: whether processors have time for the steps of their components.
ghost use Rattle.std.specs.Prelude.{IfOk};
ghost use Rattle.pals_bus.specs.proof.StepCodesOfNodes.{AreCodes};
ghost use Rattle.step_compiler.specs.LaidOutCode.{AreLaidOut};
ghost use Rattle.scenario_json.specs.proof.ScenarioValidity.{IsScenarioOf};
ghost use Rattle.design_codes.specs.DesignBehaviours.{behaviours};
ghost use Rattle.pals_top.specs.ExecutionCommands.{Budget};
ghost use Rattle.pals_top.specs.Budget.{IsBudgeted};
ghost use Rattle.pals_top.specs.proof.StatusAndText.{status_of, text_of};

use crate::answer::Answer;
use crate::bundle_meaning::{Coded, CodedCommand};
use crate::execution::{ExecutionCommand, keeps_rules};
use analysis_texts::budget;
use pals_base::{NoMemory, Text};
use pals_model::Design;
use pals_runs::Command;
use scenario_json::Scenario;
use std::alloc::Global;
use step_code::Code;

/// `budget`, of whose scenario the processors count.
#[derive(Clone, Copy)]
pub struct BudgetCommand;

impl CodedCommand for BudgetCommand {
    ghost execution = { λ _. Budget };

    fn command(&self, root: Text) -> Command {
        Command::Budget { root }
    }
}

impl ExecutionCommand for BudgetCommand {
    fn answer(self, alloc: Global, coded: Coded) -> Result<Answer, NoMemory> {
        let codes = coded.codes.as_slice();
        answer_budget(alloc, &coded.design, codes, &coded.scenario)
    }
}

// The round budgets of a scenario's processors.
fn answer_budget(
    alloc: Global,
    design: &Design,
    codes: &[Code],
    scenario: &Scenario,
) -> Result<Answer, NoMemory>
    requires codes { AreCodes design.now codes.now }
    requires layout { AreLaidOut (behaviours design.now) codes.now }
    requires kept { IsScenarioOf design.now scenario.now }
    ensures { IfOk result (λ answer. IsBudgeted design.now scenario.now (status_of answer) (text_of answer)) }
{
    keeps_rules(design);
    let budgets = budget(alloc, design, codes, scenario.processors.as_slice())?;
    Ok(Answer::judged(budgets.text, !budgets.over))
}
