//! The law that bytes mean a scenario or have a first fault. The function does nothing: its contract is the law.
ghost use Rattle.std.specs.Prelude.{◌⊎◌, ℕ, List};
ghost use Rattle.pals_model.specs.declared.design.DesignParts.{DesignParts};
ghost use Rattle.pals_runs.specs.declared.commands.Command.{Command};
ghost use Rattle.scenario_laws.specs.proof.ScenarioOrFault.{HasScenario, HasFault};

/// Bytes mean a scenario for a design and a command, or have a first fault. That fault is never
/// `Memory`.
pub fn scenario_or_fault()
    ensures { (bytes : List ℕ) (design : DesignParts) (command : Command)
        → HasScenario bytes design command ⊎ HasFault bytes design command }
{}
