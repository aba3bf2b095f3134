//! Accepted instances and their designs. Each law is the contract of a function that does nothing.
ghost use Rattle.std.specs.Prelude.{◌≡◌, ℕ};
ghost use Rattle.aadl_tree.specs.Declarations.{PackageTree};
ghost use Rattle.pals_model.specs.declared.design.DesignParts.{DesignParts};
ghost use Rattle.pals_model.specs.DesignRules.{IsDesign};
ghost use Rattle.design_laws.specs.proof.PackageNames.{AreNamed};
ghost use Rattle.model_violations.specs.Violations.{ShownInstance};
ghost use Rattle.design_laws.specs.proof.AcceptedInstances.{IsShown, NothingFound, HasDesign};
ghost use Rattle.design_laws.specs.InstanceDesigns.{IsDesignOf};

use crate::thread_behaviours::no_findings_make_a_thread_behave;

/// If the names of a package are distinct words and its instance model has no findings, the instance model has
/// a design, which satisfies the rules of designs.
pub fn accepted_instances_have_designs()
    ensures { (tree : PackageTree ℕ) (s : ShownInstance) → AreNamed tree → IsShown tree s → NothingFound tree s
        → HasDesign tree s }
{
    no_findings_make_a_thread_behave();
}

/// An instance model has at most one design.
pub fn designs_are_one()
    ensures { (tree : PackageTree ℕ) (s : ShownInstance) (a b : DesignParts) → IsDesignOf tree s a → IsDesignOf tree s b
        → a ≡ b }
{}

/// If the names of a package are distinct words and its instance model has no findings, it is contradictory
/// that the instance model has no design.
pub fn designs_are_there()
    ensures { (tree : PackageTree ℕ) (s : ShownInstance) → AreNamed tree → ∥ IsShown tree s ∥₁ → NothingFound tree s
        → ((design : DesignParts) → IsDesignOf tree s design → ⊥) → ⊥ }
{
    no_findings_make_a_thread_behave();
}

/// If the names of a package are distinct words and its instance model has no findings, its design satisfies
/// the rules of designs.
pub fn designs_keep_their_rules()
    ensures { (tree : PackageTree ℕ) (s : ShownInstance) → AreNamed tree → ∥ IsShown tree s ∥₁ → NothingFound tree s
        → (design : DesignParts) → IsDesignOf tree s design → IsDesign design }
{
    no_findings_make_a_thread_behave();
}
