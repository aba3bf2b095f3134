//! The common part of all commands that need a design, its step codes and a scenario, without a host.
ghost use Rattle.std.specs.Prelude.{IfOk};
ghost use Rattle.pals_model.specs.DesignRules.{IsDesign};
ghost use Rattle.pals_bus.specs.proof.StepCodesOfNodes.{AreCodes};
ghost use Rattle.scenario_json.specs.proof.ScenarioValidity.{IsScenarioOf};
ghost use Rattle.step_compiler.specs.LaidOutCode.{AreLaidOut};
ghost use Rattle.design_codes.specs.DesignBehaviours.{behaviours};
ghost use Rattle.pals_top.specs.ExecutionAnswers.{Makes, IsExecutionAnswer};
ghost use Rattle.pals_top.specs.proof.BundlesWithCodes.{HasEvents};
ghost use Rattle.pals_top.specs.proof.StatusAndText.{status_of, text_of};

use crate::answer::Answer;
use crate::bundle_meaning::{BundleMeaning, Coded, CodedCommand, meaning_of};
use pals_base::{NoMemory, Text};
use pals_model::Design;
use std::alloc::Global;

/// A command whose answer is a function of a design, its step codes and a scenario, without a host.
pub trait ExecutionCommand: CodedCommand {
    /// The answer to a design with its step codes and a scenario.
    fn answer(self, alloc: Global, coded: Coded) -> Result<Answer, NoMemory>
        requires codes { AreCodes coded.design coded.codes }
        requires layout { AreLaidOut (behaviours coded.design) coded.codes }
        requires kept { IsScenarioOf coded.design coded.scenario }
        requires events { HasEvents (Self.execution self) coded.design coded.scenario }
        ensures { IfOk result (λ answer. Makes (Self.execution self) coded.design coded.scenario (status_of answer)
            (text_of answer)) };
}

/// The answer to a bundle: what the command makes of the design, its codes and the scenario that it means.
pub fn answer_execution<C: ExecutionCommand + Drop>(
    alloc: Global,
    bundle: &[u8],
    root: Text,
    command: C,
) -> Result<Answer, NoMemory>
    ensures { IfOk result (λ answer. IsExecutionAnswer (C.execution command) root bundle.now (status_of answer)
        (text_of answer)) }
{
    match meaning_of(alloc, bundle, root, &command)? {
        BundleMeaning::Coded(coded) => command.answer(alloc, coded),
        BundleMeaning::Refused(answer) => Ok(answer),
    }
}

/// Every design keeps its rules.
pub fn keeps_rules(design: &Design)
    ensures { IsDesign design.now }
{
    let _parts = design.parts();
}
