//! An instance model with an empty list of violations has no findings, and the behaviours of its threads
//! satisfy the rules of behaviours. Each law is the contract of a function that does nothing.
ghost use Rattle.std.specs.Prelude.{ℕ, [], All};
ghost use Rattle.aadl_tree.specs.Declarations.{PackageTree};
ghost use Rattle.design_laws.specs.proof.PackageNames.{AreNamed};
ghost use Rattle.model_violations.specs.Violations.{ShownInstance, AreViolations};
ghost use Rattle.design_laws.specs.proof.AcceptedInstances.{IsShown, NothingFound};
ghost use Rattle.design_laws.specs.InstanceDesigns.{HasRules};

use crate::thread_behaviours::no_findings_make_a_thread_behave;

/// If the list of all violations is empty, there are no findings.
pub fn no_violations_are_no_findings()
    ensures { (tree : PackageTree ℕ) (s : ShownInstance) → AreViolations tree s [] → NothingFound tree s }
{}

/// If the names of a package are distinct words and its instance model has no findings, the behaviour of each
/// thread satisfies the rules of behaviours.
pub fn behaviours_keep_their_rules()
    ensures { (tree : PackageTree ℕ) (s : ShownInstance) → AreNamed tree → ∥ IsShown tree s ∥₁ → NothingFound tree s
        → All (HasRules tree) s.threads }
{
    no_findings_make_a_thread_behave();
}
