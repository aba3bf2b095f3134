//! Laws of canonical texts. Each law is the contract of a function that does nothing.
ghost use Rattle.std.specs.Prelude.{◌≡◌, ℕ, List};
ghost use Rattle.aadl_tree.specs.Declarations.{PackageTree};
ghost use Rattle.aadl_tree.specs.TextTreesAndFaults.{IsTreeOf};
ghost use Rattle.aadl_tree.specs.CanonicalText.{canon};
ghost use Rattle.aadl_tree.specs.proof.PlaceMaps.{package_to, no_place};
ghost use Rattle.aadl_tree.specs.proof.PackageViews.{meaning};
ghost use Rattle.aadl_tree.specs.declared.package.PackageTree.{PackageTree as SourceTree};
ghost use Rattle.aadl_grammar.specs.proof.CanonicalRoundTrip.{HasSameTree};

/// The canonical text of a tree parses to the same tree with other places, within the nesting limit, and to no
/// other tree. The text does not depend on the places of the tree.
pub fn canonical_text_is_read_back()
    ensures of_text { (text : List ℕ) (tree : PackageTree ℕ) → IsTreeOf text tree
        → HasSameTree (canon tree) (package_to no_place tree) }
    ensures only { (text : List ℕ) (tree again : PackageTree ℕ)
        → IsTreeOf text tree → IsTreeOf (canon tree) again → package_to no_place again ≡ package_to no_place tree }
    ensures of_tree { (tree : SourceTree) → ∥ HasSameTree (canon (meaning tree)) (meaning tree) ∥₁ }
    ensures places { (tree : PackageTree ℕ) → canon (package_to no_place tree) ≡ canon tree }
{}
