//! Each package has an instance model or a first fault, which is never `Memory`, and each instance model has a
//! list of all its violations. Each law is the contract of a function that does nothing.
ghost use Rattle.std.specs.Prelude.{◌⊎◌, ◌≢◌, ℕ, List};
ghost use Rattle.aadl_tree.specs.Declarations.{PackageTree};
ghost use Rattle.aadl_names.specs.declared.fault.PackageFault.{PackageFault};
ghost use Rattle.aadl_names.specs.declared.fault.PackageFault.TheVariants.{Memory};
ghost use Rattle.aadl_instance.specs.Faults.{IsFault};
ghost use Rattle.aadl_instance.specs.InstancesByPaths.{InstanceParts, IsFlat};
ghost use Rattle.design_laws.specs.proof.FirstFaultOrInstance.{HasFirstFault, HasInstance, HasList};

/// For each root name, a package has an instance model or a first fault.
pub fn instance_or_fault()
    ensures { (tree : PackageTree ℕ) (root : List ℕ) → HasFirstFault tree root ⊎ HasInstance tree root }
{}

/// The first fault of a package is never `Memory`.
pub fn first_faults_are_named()
    ensures { (tree : PackageTree ℕ) (root : List ℕ) (fault : PackageFault) → IsFault tree root fault → fault ≢ Memory }
{}

/// Each instance model has a list of all its violations.
pub fn each_instance_has_its_list()
    ensures { (tree : PackageTree ℕ) (root : List ℕ) (parts : InstanceParts) → IsFlat tree root parts
        → HasList tree parts }
{}
