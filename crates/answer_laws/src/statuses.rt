//! What a bundle has decides the status of a command's answer. Each law is the contract of a function
//! that does nothing.
ghost use Rattle.std.specs.Prelude.{◌≡◌, ◌↔◌, ◌⊎◌, ◌<◌, ℕ, false, List};
ghost use Rattle.pals_top.specs.Print.{IsPrintAnswer};
ghost use Rattle.pals_top.specs.Check.{IsCheckAnswer};
ghost use Rattle.pals_top.specs.AnalysisCommands.{Analysis};
ghost use Rattle.pals_top.specs.ExecutionCommands.{Execution};
ghost use Rattle.pals_top.specs.AnalysisAnswers.{command_of, IsAnalysisAnswer};
ghost use Rattle.pals_top.specs.ExecutionAnswers.{command_of as execution_command, IsExecutionAnswer};
ghost use Rattle.answer_laws.specs.proof.BundleContents.{HasTree, MeansDesign, MeansScenario, HasLongCode};
ghost use Rattle.answer_laws.specs.proof.BundleContents.{LacksScenario, GivesStatus};
ghost use Rattle.pals_top.specs.proof.FlaggedAndRunCommands.{is_run};

use design_laws::packages::one_design;
use loose_world::world_laws::one_end;
use round_budget::laws::text_is_one;

/// `print` returns 0 if the bundle has a design text of the grammar, and 3 otherwise.
pub fn statuses_of_print()
    ensures done { (bundle : List ℕ) (status : ℕ) (text : List ℕ) → IsPrintAnswer bundle status text
        → (status ≡ 0) ↔ HasTree bundle }
    ensures text { (bundle : List ℕ) (status : ℕ) (text : List ℕ) → IsPrintAnswer bundle status text
        → (status ≡ 3) ↔ (HasTree bundle → ⊥) }
{}

/// `check` returns 0 if and only if the bundle means a design, 3 if and only if it has no design text of
/// the grammar, and 4 if and only if it has such a text and means no design.
pub fn statuses_of_check()
    ensures done { (root bundle : List ℕ) (status : ℕ) (text : List ℕ) → IsCheckAnswer root bundle status text
        → (status ≡ 0) ↔ MeansDesign root bundle }
    ensures text { (root bundle : List ℕ) (status : ℕ) (text : List ℕ) → IsCheckAnswer root bundle status text
        → (status ≡ 3) ↔ (HasTree bundle → ⊥) }
    ensures design { (root bundle : List ℕ) (status : ℕ) (text : List ℕ) → IsCheckAnswer root bundle status text
        → (status ≡ 4) ↔ (HasTree bundle × (MeansDesign root bundle → ⊥)) }
{}

/// A command that needs a design and a scenario returns 0 or 1 if and only if the bundle means both, 3 and
/// 4 as `check` does, and 5 if and only if the bundle means a design and no scenario.
pub fn statuses_of_analyses()
    ensures done { (what : Analysis) (root bundle : List ℕ) (status : ℕ) (text : List ℕ)
        → IsAnalysisAnswer what root bundle status text
        → (status < 2) ↔ MeansScenario root bundle (command_of what root) }
    ensures text { (what : Analysis) (root bundle : List ℕ) (status : ℕ) (text : List ℕ)
        → IsAnalysisAnswer what root bundle status text
        → (status ≡ 3) ↔ (HasTree bundle → ⊥) }
    ensures design { (what : Analysis) (root bundle : List ℕ) (status : ℕ) (text : List ℕ)
        → IsAnalysisAnswer what root bundle status text
        → (status ≡ 4) ↔ (HasTree bundle × (MeansDesign root bundle → ⊥)) }
    ensures scenario { (what : Analysis) (root bundle : List ℕ) (status : ℕ) (text : List ℕ)
        → IsAnalysisAnswer what root bundle status text
        → (status ≡ 5) ↔ (MeansDesign root bundle × (MeansScenario root bundle (command_of what root) → ⊥)) }
{
    one_design();
}

/// A command that needs step codes returns 3 and 4 as `check` does, and 13 if and only if the bundle means
/// a design with a step code that is too long. For a design without such a code it returns 5 if and only if
/// the bundle has no scenario for it, or if the result for the scenario has this status. A command other
/// than `run` returns 0, 1 or 6 if and only if the result for the scenario has this status.
pub fn statuses_of_executions()
    ensures text { (what : Execution) (root bundle : List ℕ) (status : ℕ) (text : List ℕ)
        → IsExecutionAnswer what root bundle status text
        → (status ≡ 3) ↔ (HasTree bundle → ⊥) }
    ensures design { (what : Execution) (root bundle : List ℕ) (status : ℕ) (text : List ℕ)
        → IsExecutionAnswer what root bundle status text
        → (status ≡ 4) ↔ (HasTree bundle × (MeansDesign root bundle → ⊥)) }
    ensures code { (what : Execution) (root bundle : List ℕ) (status : ℕ) (text : List ℕ)
        → IsExecutionAnswer what root bundle status text
        → (status ≡ 13) ↔ HasLongCode root bundle }
    ensures scenario { (what : Execution) (root bundle : List ℕ) (status : ℕ) (text : List ℕ)
        → IsExecutionAnswer what root bundle status text
        → (status ≡ 5) ↔ (LacksScenario what root bundle ⊎ GivesStatus what root bundle 5) }
    ensures done { (what : Execution) (root bundle : List ℕ) (status : ℕ) (text : List ℕ)
        → is_run (execution_command what root) ≡ false
        → IsExecutionAnswer what root bundle status text
        → (status ≡ 0) ↔ GivesStatus what root bundle 0 }
    ensures not_so { (what : Execution) (root bundle : List ℕ) (status : ℕ) (text : List ℕ)
        → is_run (execution_command what root) ≡ false
        → IsExecutionAnswer what root bundle status text
        → (status ≡ 1) ↔ GivesStatus what root bundle 1 }
    ensures stop { (what : Execution) (root bundle : List ℕ) (status : ℕ) (text : List ℕ)
        → is_run (execution_command what root) ≡ false
        → IsExecutionAnswer what root bundle status text
        → (status ≡ 6) ↔ GivesStatus what root bundle 6 }
{
    one_design();
    one_end();
    text_is_one();
}
