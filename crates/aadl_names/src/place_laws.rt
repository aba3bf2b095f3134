//! The law that places rise along the tree of a text. It is the contract of a function that does
//! nothing.
ghost use Rattle.std.specs.Prelude.{ℕ, ◌<◌, List};
ghost use Rattle.aadl_tree.specs.Declarations.{PackageTree, package_parts};
ghost use Rattle.aadl_tree.specs.TextTreesAndFaults.{IsTreeOf};
ghost use Rattle.aadl_names.specs.proof.PlaceOrder.{StandsBefore};

/// In the tree of a text, a place that is stored before some part is less than a place that is stored
/// after it. So names that a package declares one after the other are at different places.
pub fn places_rise()
    ensures { (text : List ℕ) (tree : PackageTree ℕ) → IsTreeOf text tree → (p q : ℕ)
        → StandsBefore (package_parts tree) p q → p < q }
{}
