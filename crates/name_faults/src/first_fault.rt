//! The first fault in the names of a package.
ghost use Rattle.std.specs.Prelude.{IfOk};
ghost use Rattle.aadl_tree.specs.proof.PackageViews.{placed};
ghost use Rattle.aadl_names.specs.FirstFaults.{FirstOf};
ghost use Rattle.aadl_names.specs.PackageNameFaults.{package_faults};

use crate::declarations::check_declarations;
use crate::{all_port_names, check_duplicates};
use aadl_names::{FaultFinder, PackageFault};
use aadl_uses::PackageConnections;
use std::alloc::{AllocError, Global};

/// Returns the first fault in the names of a package, or `None` if there is none. The root's implementation has
/// the given number. Errors: out of memory.
pub fn first_name_fault(
    alloc: Global,
    wires: &PackageConnections<'_>,
    root: usize,
) -> Result<Option<PackageFault>, AllocError>
    ensures { IfOk result (FirstOf (package_faults (placed wires.now.uses.names.tree.now) root)) }
{
    let mut finder = FaultFinder::new(alloc);
    let all = all_port_names(alloc, wires.uses.names.tree)?;
    check_declarations(&mut finder, wires, &all, root)?;
    check_duplicates(&mut finder, &wires.uses, &all)?;
    Ok(finder.finish())
}
