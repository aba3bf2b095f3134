//! What holds of the design that a bundle means. The law is the contract of a function that does
//! nothing.
ghost use Rattle.std.specs.Prelude.{ℕ, List, []};
ghost use Rattle.pals_model.specs.declared.design.DesignParts.{DesignParts};
ghost use Rattle.pals_model.specs.DesignRules.{IsDesign};
ghost use Rattle.aadl_tree.specs.Declarations.{PackageTree};
ghost use Rattle.aadl_instance.specs.InstancesByPaths.{InstanceParts, IsFlat};
ghost use Rattle.model_violations.specs.Violations.{shown_by, AreViolations};
ghost use Rattle.bundle_designs.specs.ParsedBundles.{IsParsed};
ghost use Rattle.bundle_designs.specs.AcceptedAndRefusedPackages.{IsAccepted};
ghost use Rattle.answer_laws.specs.proof.BundleContents.{MeansDesign};

use design_laws::packages::designs_of_texts_keep_their_rules;

/// The design that a bundle means satisfies the rules of designs, so its period is at least the minimum
/// period of the bound. A bundle means a design if its design text has a tree, the package has an instance
/// below the root, and the list of the instance's violations is empty.
pub fn accepted_designs_keep_their_rules()
    ensures rules { (root bundle : List ℕ) (design : DesignParts) (scenario : List ℕ)
        → IsAccepted root bundle design scenario → IsDesign design }
    ensures there { (root bundle text scenario : List ℕ) (tree : PackageTree ℕ) (parts : InstanceParts)
        → IsParsed bundle text scenario tree
        → IsFlat tree root parts → AreViolations tree (shown_by tree parts) [] → MeansDesign root bundle }
{
    designs_of_texts_keep_their_rules();
}
