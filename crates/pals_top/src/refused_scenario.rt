//! Answers to bundles whose scenario, or an event of it, is refused.
ghost use Rattle.std.specs.Prelude.{◌≡◌, ◌≢◌, ◌++◌, IfOk};
ghost use Rattle.pals_model.specs.RoundTexts.{line_end};
ghost use Rattle.pals_report.specs.EventFaultLines.{event_fault_line};
ghost use Rattle.pals_report.specs.ScenarioFaultLines.{scenario_fault_line};
ghost use Rattle.scenario_values.specs.declared.fault.ScenarioFault.{ScenarioFault};
ghost use Rattle.pals_top.specs.declared.status.TheConstants.{SCENARIO_REFUSED};
ghost use Rattle.pals_top.specs.proof.StatusAndText.{status_of, text_of, Says};

use crate::answer::Answer;
use pals_base::NoMemory;
use pals_model::Design;
use pals_report::{add_event_fault, add_scenario_fault};
use pals_runs::EventFault;
use scenario_json::ScenarioFault;
use std::alloc::{AllocError, Global};

/// The answer to a scenario with this fault. Out of memory is not a fault of a scenario, and is
/// returned as an error.
pub fn refused_scenario(alloc: Global, fault: &ScenarioFault) -> Result<Answer, NoMemory>
    ensures status { IfOk result (λ answer. status_of answer ≡ SCENARIO_REFUSED) }
    ensures text { IfOk result (λ answer. text_of answer ≡ scenario_fault_line fault.now ++ line_end) }
    ensures named { IfOk result (λ answer. fault.now ≢ ScenarioFault.Memory) }
{
    if let ScenarioFault::Memory = fault {
        return Err(AllocError);
    }
    let mut line = Vec::new(alloc);
    add_scenario_fault(&mut line, fault)?;
    Ok(Answer::ScenarioRefused(line))
}

/// The answer to an event that is not allowed.
pub fn refused_event(
    alloc: Global,
    design: &Design,
    index: u32,
    fault: &EventFault,
) -> Result<Answer, NoMemory>
    ensures { IfOk result (Says SCENARIO_REFUSED (event_fault_line design.now index fault.now ++ line_end)) }
{
    let mut line = Vec::new(alloc);
    add_event_fault(&mut line, design, index, fault)?;
    Ok(Answer::ScenarioRefused(line))
}
