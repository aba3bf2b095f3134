//! The law that the comparisons of a package's names find the first fault of all.

ghost use Rattle.std.specs.Prelude.{ℕ, ◌++◌, None};
ghost use Rattle.aadl_tree.specs.Declarations.{PackageTree};
ghost use Rattle.aadl_names.specs.FirstFaults.{FirstOf};
ghost use Rattle.aadl_names.specs.proof.FirstFaultSoFar.{found};
ghost use Rattle.aadl_names.specs.PackageNameFaults.{wrong_names, package_faults};
ghost use Rattle.aadl_names.specs.proof.DuplicatesBesidePorts.{beside_names};

/// The first finding of the comparisons of a package's names is the first fault of all names.
pub fn first_of_all()
    ensures { (tree : PackageTree ℕ) → (root : ℕ)
        → FirstOf (package_faults tree root) (found None (wrong_names tree root ++ beside_names tree)) }
{}
