//! A bundle has one split, one design, one refusal, one scenario and one report at most. Each law is the contract of
//! a function that does nothing.
ghost use Rattle.std.specs.Prelude.{◌≡◌, ◌⊎◌, ℕ, List, Result};
ghost use Rattle.pals_model.specs.declared.design.DesignParts.{DesignParts};
ghost use Rattle.pals_runs.specs.declared.commands.Command.{Command};
ghost use Rattle.aadl_tree.specs.Declarations.{PackageTree};
ghost use Rattle.aadl_tree.specs.TextTreesAndFaults.{IsTreeOf};
ghost use Rattle.scenario_values.specs.declared.fault.ScenarioFault.{ScenarioFault};
ghost use Rattle.scenario_json.specs.declared.scenario.Scenario.{Scenario};
ghost use Rattle.scenario_json.specs.Scenarios.{Means};
ghost use Rattle.pals_report.specs.CheckReports.{IsCheckReport};
ghost use Rattle.bundle_designs.specs.Bundles.{IsSplit, HasNoDivider};
ghost use Rattle.bundle_designs.specs.AcceptedAndRefusedPackages.{IsFaulty, HasViolations, IsAccepted};
ghost use Rattle.pals_top.specs.RefusalAnswers.{IsBundleRefused};

use design_laws::packages::one_design;
use design_laws::unique_faults::one_fault;

/// At most one line divides a bundle.
pub fn one_split()
    ensures one { (bundle a b s t : List ℕ) → IsSplit bundle a s → IsSplit bundle b t → (a ≡ b) × (s ≡ t) }
    ensures divided { (bundle text scenario : List ℕ) → IsSplit bundle text scenario → HasNoDivider bundle → ⊥ }
    ensures either { (bundle : List ℕ)
        → ((text : List ℕ) × (scenario : List ℕ) × IsSplit bundle text scenario) ⊎ HasNoDivider bundle }
{}

/// A bundle means one design at most, with one scenario's bytes.
pub fn one_design_of_a_bundle()
    ensures { (root bundle : List ℕ) (a b : DesignParts) (s t : List ℕ)
        → IsAccepted root bundle a s → IsAccepted root bundle b t → (a ≡ b) × (s ≡ t) }
{
    one_design();
}

/// A bundle that means a design is not refused.
pub fn accepted_is_not_refused()
    ensures { (root bundle : List ℕ) (design : DesignParts) (scenario : List ℕ) (status : ℕ) (text : List ℕ)
        → IsAccepted root bundle design scenario → IsBundleRefused root bundle status text → ⊥ }
{}

/// For a rejected package, the answer names either its first fault or all violations of its instance, and
/// exactly one text does so.
pub fn one_refusal()
    ensures violations { (text : List ℕ) (tree : PackageTree ℕ) (root a b : List ℕ)
        → HasViolations text tree root a → HasViolations text tree root b → a ≡ b }
    ensures either { (text : List ℕ) (tree : PackageTree ℕ) (root a b : List ℕ)
        → IsFaulty text tree root a → HasViolations text tree root b → ⊥ }
    ensures fault { (text : List ℕ) (tree : PackageTree ℕ) (root a b : List ℕ) → IsTreeOf text tree
        → IsFaulty text tree root a → IsFaulty text tree root b → a ≡ b }
{
    one_fault();
}

/// Bytes mean one scenario, or have one first fault, for a design and a command.
pub fn one_scenario()
    ensures { (bytes : List ℕ) (design : DesignParts) (command : Command) (a b : Result Scenario ScenarioFault)
        → Means bytes design command a → Means bytes design command b → a ≡ b }
{}

/// There is one report of a design that is accepted.
pub fn one_report()
    ensures { (design : DesignParts) (a b : List ℕ) → IsCheckReport design a → IsCheckReport design b → a ≡ b }
{}
