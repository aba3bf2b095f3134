//! The command `audit`: the verdict on a trace.
ghost use Rattle.std.specs.Prelude.{◌≡◌, ◌≤◌, length, IfOk};
ghost use Rattle.pals_base.specs.declared.limits.TheConstants.{LIST_ITEMS};
ghost use Rattle.pals_bus.specs.proof.StepCodesOfNodes.{AreCodes};
ghost use Rattle.scenario_json.specs.proof.ScenarioValidity.{IsScenarioOf};
ghost use Rattle.pals_top.specs.ExecutionCommands.{Audit};
ghost use Rattle.pals_top.specs.Audit.{IsAudited, SaysVerdict, is_sound};
ghost use Rattle.pals_top.specs.proof.StatusAndText.{status_of, text_of};

use crate::answer::Answer;
use crate::bundle_meaning::{Coded, CodedCommand};
use crate::execution::{ExecutionCommand, keeps_rules};
use pals_base::{ItemList, NoMemory, Text};
use pals_model::Design;
use pals_report::add_verdict;
use pals_runs::{Command, Verdict};
use scenario_json::Scenario;
use std::alloc::Global;
use std::sync::Arc;
use step_code::Code;
use trace_audit::audit;

/// `audit`, of whose scenario the root's inputs, the number of rounds, the delays and the trace count.
#[derive(Clone, Copy)]
pub struct AuditCommand;

impl CodedCommand for AuditCommand {
    ghost execution = { λ _. Audit };

    fn command(&self, root: Text) -> Command {
        Command::Audit { root }
    }
}

impl ExecutionCommand for AuditCommand {
    fn answer(self, alloc: Global, coded: Coded) -> Result<Answer, NoMemory> {
        let Coded {
            design,
            codes,
            scenario,
        } = coded;
        answer_audit(alloc, design, codes, scenario)
    }
}

// The verdict on the trace of a scenario.
fn answer_audit(
    alloc: Global,
    design: Design,
    codes: ItemList<Code>,
    scenario: Scenario,
) -> Result<Answer, NoMemory>
    requires codes { AreCodes design codes }
    requires kept { IsScenarioOf design scenario }
    requires few { length scenario.trace ≤ LIST_ITEMS }
    ensures { IfOk result (λ answer. IsAudited design scenario (status_of answer) (text_of answer)) }
{
    keeps_rules(&design);
    let Scenario {
        rounds,
        env,
        delays,
        trace,
        ..
    } = scenario;
    let design = Arc::new(alloc, design)?;
    let named = Arc::try_clone(&design)?;
    let verdict = audit(alloc, design, codes, env, rounds, delays, trace.as_slice())?;
    judged(alloc, &named, &verdict)
}

// The line of a verdict.
fn judged(alloc: Global, design: &Design, verdict: &Verdict) -> Result<Answer, NoMemory>
    ensures { IfOk result (λ answer. SaysVerdict design.now verdict.now (status_of answer) (text_of answer)) }
{
    let mut line = Vec::new(alloc);
    add_verdict(&mut line, design, verdict)?;
    Ok(Answer::judged(line, is_sound(verdict)))
}

fn is_sound(verdict: &Verdict) -> bool
    ensures { result ≡ is_sound verdict.now }
{
    matches!(verdict, Verdict::Sound { .. })
}
