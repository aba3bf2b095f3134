//! Laws on the faults of a package. Each law is the contract of a function that does nothing.
ghost use Rattle.std.specs.Prelude.{◌≡◌, ℕ, List};
ghost use Rattle.aadl_tree.specs.Declarations.{PackageTree};
ghost use Rattle.aadl_names.specs.declared.fault.PackageFault.{PackageFault};
ghost use Rattle.aadl_names.specs.FirstFaults.{place_of, number_of};
ghost use Rattle.aadl_instance.specs.Faults.{IsFault};
ghost use Rattle.aadl_instance.specs.InstancesByPaths.{IsFlat, InstanceParts};

/// A package does not have both a flattened design and a first fault.
pub fn not_both()
    ensures { (tree : PackageTree ℕ) (name : List ℕ) (parts : InstanceParts) (fault : PackageFault)
        → IsFlat tree name parts → IsFault tree name fault → ⊥ }
{}

/// Two first faults of a package have the same position and the same kind.
pub fn one_first_fault()
    ensures { (tree : PackageTree ℕ) (name : List ℕ) (a b : PackageFault) → IsFault tree name a → IsFault tree name b
        → (place_of a ≡ place_of b) × (number_of a ≡ number_of b) }
{}
