//! The meaning of a package below a named root is unique and satisfies the rules of designs. Each law is the
//! contract of a function that does nothing.
ghost use Rattle.std.specs.Prelude.{◌≡◌, ◌≤◌, ℕ, List, []};
ghost use Rattle.pals_base.specs.PeriodBoundAndReleases.{least_period};
ghost use Rattle.pals_model.specs.declared.design.DesignParts.{DesignParts};
ghost use Rattle.pals_model.specs.DesignRules.{IsDesign, greatest_rate};
ghost use Rattle.aadl_tree.specs.declared.package.PackageTree as source;
ghost use Rattle.aadl_tree.specs.Declarations.{PackageTree};
ghost use Rattle.aadl_tree.specs.proof.TreesOfSomeText.{IsGiven};
ghost use Rattle.aadl_tree.specs.proof.PackageViews.{placed};
ghost use Rattle.aadl_names.specs.declared.fault.PackageFault.{PackageFault};
ghost use Rattle.aadl_instance.specs.Faults.{IsFault};
ghost use Rattle.aadl_instance.specs.InstancesByPaths.{InstanceParts, IsFlat};
ghost use Rattle.annex_resolve.specs.declared.violation.Violation.{Violation};
ghost use Rattle.model_violations.specs.Violations.{ShownInstance, shown_by, AreViolations};
ghost use Rattle.design_laws.specs.PackageDesigns.{IsDesignIn};

use crate::designs::{accepted_instances_have_designs, designs_are_one};
use crate::names::{names_differ, texts_name};

/// A package has at most one instance model.
pub fn one_instance()
    ensures { (tree : PackageTree ℕ) (root : List ℕ) (a b : InstanceParts) → IsFlat tree root a → IsFlat tree root b
        → a ≡ b }
{}

/// An instance model has at most one list of all its violations.
pub fn one_list()
    ensures { (tree : PackageTree ℕ) (s : ShownInstance) (a b : List Violation) → AreViolations tree s a
        → AreViolations tree s b → a ≡ b }
{}

/// A package has at most one design.
pub fn one_design()
    ensures { (tree : PackageTree ℕ) (root : List ℕ) (a b : DesignParts) → IsDesignIn tree root a
        → IsDesignIn tree root b → a ≡ b }
{
    designs_are_one();
}

/// A package with a design has no fault, and its instance model has no violations.
pub fn accepted_or_refused()
    ensures no_fault { (tree : PackageTree ℕ) (root : List ℕ) (design : DesignParts) (fault : PackageFault)
        → IsDesignIn tree root design → IsFault tree root fault → ⊥ }
    ensures nothing_wrong { (tree : PackageTree ℕ) (root : List ℕ) (design : DesignParts) (parts : InstanceParts)
        (list : List Violation)
        → IsDesignIn tree root design → IsFlat tree root parts → AreViolations tree (shown_by tree parts) list
        → list ≡ [] }
{}

/// The design of a package that is read from a text satisfies the rules of designs. Such a package has a design
/// if it has an instance model with an empty list of violations. The period of the design is at least the
/// minimum period that the bound allows for the maximum rate of its components.
pub fn designs_keep_their_rules()
    ensures rules { (tree : source.PackageTree) (root : List ℕ) (design : DesignParts)
        → IsDesignIn (placed tree) root design → IsDesign design }
    ensures there { (tree : source.PackageTree) (root : List ℕ) (parts : InstanceParts)
        → IsFlat (placed tree) root parts
        → AreViolations (placed tree) (shown_by (placed tree) parts) []
        → (design : DesignParts) × IsDesignIn (placed tree) root design }
    ensures bound { (tree : PackageTree ℕ) (root : List ℕ) (design : DesignParts) → IsDesignIn tree root design
        → least_period design.gamma (greatest_rate design.components) ≤ design.period }
{
    texts_name();
    accepted_instances_have_designs();
    crate::designs::designs_keep_their_rules();
}

/// The design of the grammar's tree for some text satisfies the rules of designs. Such a tree has a design if
/// it has an instance model with an empty list of violations.
pub fn designs_of_texts_keep_their_rules()
    ensures rules { (tree : PackageTree ℕ) (root : List ℕ) (design : DesignParts) → IsGiven tree
        → IsDesignIn tree root design → IsDesign design }
    ensures there { (tree : PackageTree ℕ) (root : List ℕ) (parts : InstanceParts) → IsGiven tree
        → IsFlat tree root parts
        → AreViolations tree (shown_by tree parts) [] → (design : DesignParts) × IsDesignIn tree root design }
{
    names_differ();
    accepted_instances_have_designs();
    crate::designs::designs_keep_their_rules();
}
