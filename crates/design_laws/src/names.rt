//! The names of a package are words, and the names in one implementation are distinct. Each law is the contract
//! of a function that does nothing.
ghost use Rattle.std.specs.Prelude.{◌≡◌, ℕ, [], Some, slice_get};
ghost use Rattle.aadl_tree.specs.declared.package.PackageTree as source;
ghost use Rattle.aadl_tree.specs.Declarations.{PackageTree, Implementation, implementation};
ghost use Rattle.aadl_tree.specs.proof.TreesOfSomeText.{IsGiven};
ghost use Rattle.aadl_tree.specs.proof.PackageViews.{placed};
ghost use Rattle.aadl_names.specs.PackageNameFaults.{package_faults};
ghost use Rattle.design_laws.specs.proof.PackageNames.{HasWords, NamesDiffer, AreNamed};

/// The names of ports, subcomponents, variables and states are words: a letter followed by letters, digits and
/// `_`, at most 64 bytes in total.
pub fn names_are_words()
    ensures { (tree : source.PackageTree) → HasWords (placed tree) }
{}

/// If the package of a text has no faults in its names, names are distinct in each of three groups: the ports,
/// subcomponents and connections of an implementation; the ports and variables of a thread; and the states of a
/// thread.
pub fn names_differ()
    ensures { (tree : PackageTree ℕ) (root n : ℕ) (x : Implementation ℕ) → IsGiven tree → package_faults tree root ≡ []
        → slice_get tree.declarations n ≡ Some (implementation x) → NamesDiffer tree x }
{}

/// The names of the package of a text are words. They are distinct if the names have no faults.
pub fn texts_name()
    ensures { (tree : source.PackageTree) → AreNamed (placed tree) }
{}
