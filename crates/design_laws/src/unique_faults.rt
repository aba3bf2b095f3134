//! A package has at most one first fault, and at most one fault of each kind at each position of its names.
//! Each law is the contract of a function that does nothing.
ghost use Rattle.std.specs.Prelude.{◌≡◌, ℕ, List, Contains};
ghost use Rattle.aadl_tree.specs.Declarations.{PackageTree};
ghost use Rattle.aadl_tree.specs.TextTreesAndFaults.{IsTreeOf};
ghost use Rattle.aadl_names.specs.declared.fault.PackageFault.{PackageFault};
ghost use Rattle.aadl_names.specs.FirstFaults.{place_of, number_of};
ghost use Rattle.aadl_names.specs.PackageNameFaults.{package_faults};
ghost use Rattle.aadl_instance.specs.Faults.{IsFault};

/// The package of a text has at most one first fault below a root, so the output that names it is unique.
pub fn one_fault()
    ensures { (text : List ℕ) (tree : PackageTree ℕ) (root : List ℕ) (a b : PackageFault) → IsTreeOf text tree
        → IsFault tree root a
        → IsFault tree root b → a ≡ b }
{}

/// In the names of a text's package, two findings of one kind at one position are equal. The root is given by
/// its number.
pub fn one_finding()
    ensures { (text : List ℕ) (tree : PackageTree ℕ) (root : ℕ) (a b : PackageFault) → IsTreeOf text tree
        → Contains (package_faults tree root) a
        → Contains (package_faults tree root) b → place_of a ≡ place_of b → number_of a ≡ number_of b → a ≡ b }
{}
