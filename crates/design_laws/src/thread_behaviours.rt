//! A thread without findings has a behaviour. The law is the contract of a function that does nothing.
ghost use Rattle.std.specs.Prelude.{◌≡◌, ℕ, [], true, flat_map, Some, slice_get};
ghost use Rattle.aadl_tree.specs.Declarations.{PackageTree, Implementation, implementation};
ghost use Rattle.aadl_names.specs.PackageNameFaults.{package_faults};
ghost use Rattle.aadl_names.specs.NameResolution.{is_thread, ports_of};
ghost use Rattle.component_checks.specs.TypeFindings.{port_findings};
ghost use Rattle.model_violations.specs.ThreadBehaviours.{implementation_findings};
ghost use Rattle.design_laws.specs.proof.PackageNames.{HasWords, NamesDiffer};
ghost use Rattle.design_laws.specs.proof.ThreadBehaviours.{Behaves};

use crate::annex_behaviours::no_findings_make_a_behaviour;

/// A thread has a behaviour under four conditions: the names of the package are words, the names in the
/// thread's implementation are distinct, the package has no faults in its names, and the thread's port types
/// and annex have no findings.
pub fn no_findings_make_a_thread_behave()
    ensures { (tree : PackageTree ℕ) (root n : ℕ) (x : Implementation ℕ) → HasWords tree → NamesDiffer tree x
        → package_faults tree root ≡ []
        → slice_get tree.declarations n ≡ Some (implementation x) → is_thread x.category ≡ true
        → flat_map port_findings (ports_of tree x) ≡ [] → implementation_findings tree x ≡ [] → Behaves tree x }
{
    no_findings_make_a_behaviour();
}
