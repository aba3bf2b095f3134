//! A package without faults below a root.
ghost use Rattle.std.specs.Prelude.{◌≡◌, ◌⊎◌, [], Some, IfOk, MatchResult};
ghost use Rattle.aadl_tree.specs.proof.PackageViews.{placed};
ghost use Rattle.aadl_names.specs.declared.fault.PackageFault.{PackageFault};
ghost use Rattle.aadl_names.specs.declared.fault.PackageFault.TheVariants.{Memory};
ghost use Rattle.aadl_names.specs.FirstFaults.{IsFirstByLine};
ghost use Rattle.aadl_names.specs.PackageNameFaults.{package_faults};
ghost use Rattle.aadl_names.specs.NameResolution as resolving;
ghost use Rattle.aadl_uses.specs.Recursion.{IsRecursive};
ghost use Rattle.aadl_chains.specs.ChainFaults.{IsEndFault};
ghost use Rattle.aadl_instance.specs.Faults.{FoundIn, IsFault, IsRoot};
ghost use Rattle.aadl_instance.specs.proof.CheckedPackages.{IsOrdered, IsChecked, FindsFault};

use crate::limits::first_limit;
use crate::root::root_number;
use aadl_chains::first_end_fault;
use aadl_names::{Names, PackageFault};
use aadl_tree::PackageTree;
use aadl_uses::{PackageConnections, Uses, first_recursive};
use indexmap::IndexSet;
use name_faults::first_name_fault;
use pals_base::Text;
use std::alloc::{AllocError, Global};

/// A package without faults below a root.
pub struct Checked<'t> {
    /// Its connections.
    pub wires: PackageConnections<'t>,
    /// Its declarations, each after the declarations that it contains.
    pub order: IndexSet<usize>,
    /// The declarations in use.
    pub used: IndexSet<usize>,
    /// The number of the root's implementation.
    pub root: usize,
}

impl Drop for Checked<'_> {
    fn drop(self) {
        let Checked {
            wires: _,
            order: _,
            used: _,
            root: _,
        } = self;
    }
}

impl<'t> Checked<'t> {
    ghost use Rattle.std.specs.Prelude.{◌≡◌};

    /// Returns only its connections.
    pub fn into_wires(self) -> PackageConnections<'t>
        ensures { result ≡ self.entry.wires }
    {
        let Checked {
            wires,
            order: _,
            used: _,
            root: _,
        } = self;
        wires
    }
}

/// Returns the package with its look-ups below the named root. Errors: the package's first fault.
pub fn check_package<'t>(
    alloc: Global,
    tree: &'t PackageTree,
    name: &Text,
) -> Result<Checked<'t>, PackageFault>
    ensures { MatchResult result
        (λ checked. (resolving.root_number (placed tree.now) name.now ≡ Some checked.root)
        × (checked.wires.uses.names.tree.now ≡ tree.now)
        × IsChecked (placed tree.now) checked)
        (λ fault. (fault ≡ Memory) ⊎ IsFault (placed tree.now) name.now fault) }
{
    match root_number(alloc, tree, name)? {
        Some(root) => {
            let names = Names::of(alloc, tree)?;
            let uses = Uses::of(alloc, names)?;
            let wires = PackageConnections::of(alloc, uses)?;
            check_names(alloc, wires, root)
        }
        None => Err(PackageFault::NoRoot),
    }
}

// Checks names, and then the remaining rules.
fn check_names<'t>(
    alloc: Global,
    wires: PackageConnections<'t>,
    root: usize,
) -> Result<Checked<'t>, PackageFault>
    requires { IsRoot (placed wires.uses.names.tree.now) root }
    ensures { MatchResult result
        (λ checked. (checked.root ≡ root) × (checked.wires.uses.names.tree.now ≡ wires.entry.uses.names.tree.now)
        × IsChecked (placed wires.entry.uses.names.tree.now) checked)
        (λ fault. (fault ≡ Memory) ⊎ IsFirstByLine (FoundIn (placed wires.entry.uses.names.tree.now) root) fault) }
{
    match first_name_fault(alloc, &wires, root)? {
        Some(fault) => Err(fault),
        None => check_recursion(alloc, wires, root),
    }
}

// Checks that no implementation contains itself, and then the remaining rules.
fn check_recursion<'t>(
    alloc: Global,
    wires: PackageConnections<'t>,
    root: usize,
) -> Result<Checked<'t>, PackageFault>
    requires root { IsRoot (placed wires.uses.names.tree.now) root }
    requires names { package_faults (placed wires.uses.names.tree.now) root ≡ [] }
    ensures { MatchResult result
        (λ checked. (checked.root ≡ root) × (checked.wires.uses.names.tree.now ≡ wires.entry.uses.names.tree.now)
        × IsChecked (placed wires.entry.uses.names.tree.now) checked)
        (λ fault. (fault ≡ Memory) ⊎ IsFirstByLine (FoundIn (placed wires.entry.uses.names.tree.now) root) fault) }
{
    match first_recursive(alloc, &wires.uses)? {
        Some(fault) => Err(fault),
        None => check_wires(alloc, wires, root),
    }
}

// Checks connections, and then the remaining rules.
fn check_wires<'t>(
    alloc: Global,
    wires: PackageConnections<'t>,
    root: usize,
) -> Result<Checked<'t>, PackageFault>
    requires root { IsRoot (placed wires.uses.names.tree.now) root }
    requires names { package_faults (placed wires.uses.names.tree.now) root ≡ [] }
    requires recursion { (fault : PackageFault) → ¬ IsRecursive (placed wires.uses.names.tree.now) fault }
    ensures { MatchResult result
        (λ checked. (checked.root ≡ root) × (checked.wires.uses.names.tree.now ≡ wires.entry.uses.names.tree.now)
        × IsChecked (placed wires.entry.uses.names.tree.now) checked)
        (λ fault. (fault ≡ Memory) ⊎ IsFirstByLine (FoundIn (placed wires.entry.uses.names.tree.now) root) fault) }
{
    let order = wires.uses.order(alloc)?;
    let used = wires.uses.in_use(alloc, root)?;
    let checked = Checked {
        wires,
        order,
        used,
        root,
    };
    match connection_fault(alloc, &checked)? {
        Some(fault) => Err(fault),
        None => Ok(checked),
    }
}

// The first fault of connections or limits.
fn connection_fault(
    alloc: Global,
    checked: &Checked<'_>,
) -> Result<Option<PackageFault>, AllocError>
    requires { IsOrdered (placed checked.now.wires.uses.names.tree.now) checked.now }
    ensures { IfOk result (FindsFault (placed checked.now.wires.uses.names.tree.now) checked.now) }
{
    match first_end_fault(
        alloc,
        &checked.wires,
        &checked.order,
        &checked.used,
        checked.root,
    )? {
        Some(fault) => Ok(Some(fault)),
        None => limit_fault(alloc, checked),
    }
}

// The first fault of limits.
fn limit_fault(alloc: Global, checked: &Checked<'_>) -> Result<Option<PackageFault>, AllocError>
    requires ordered { IsOrdered (placed checked.now.wires.uses.names.tree.now) checked.now }
    requires ends { (fault : PackageFault) → ¬ IsEndFault (placed checked.now.wires.uses.names.tree.now)
        checked.now.root fault }
    ensures { IfOk result (FindsFault (placed checked.now.wires.uses.names.tree.now) checked.now) }
{
    match first_limit(
        alloc,
        &checked.wires,
        &checked.order,
        &checked.used,
        checked.root,
    )? {
        Some(limit) => {
            let what = Text::from_str(alloc, limit.name())?;
            Ok(Some(PackageFault::TooMany { what }))
        }
        None => Ok(None),
    }
}
