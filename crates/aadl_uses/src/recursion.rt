//! Implementations that contain themselves.
ghost use Rattle.std.specs.Prelude.{◌≡◌, IfOk};
ghost use Rattle.aadl_tree.specs.proof.PackageViews.{placed};
ghost use Rattle.aadl_uses.specs.proof.FirstRecursion.{FirstIn, is_sooner, IsFirstOf, IsSooner};
ghost use Rattle.aadl_uses.specs.Recursion.{IsRecursive};

use crate::resolved_package::Uses;
use crate::{leads_back, suspects};
use aadl_names::PackageFault;
use pals_base::Text;
use std::alloc::{AllocError, Global};

/// Returns the first subcomponent of a package that leads back to the implementation that contains it, as a
/// fault. Errors: out of memory.
pub fn first_recursive(alloc: Global, uses: &Uses<'_>) -> Result<Option<PackageFault>, AllocError>
    ensures { IfOk result (FirstIn (IsRecursive (placed uses.now.names.tree.now))) }
{
    let suspects = suspects(alloc, uses.containment())?;
    first_of(alloc, uses, suspects.as_slice())
}

// The first of these subcomponents that leads back.
fn first_of(
    alloc: Global,
    uses: &Uses<'_>,
    suspects: &[(usize, usize)],
) -> Result<Option<PackageFault>, AllocError>
    ensures { IfOk result (IsFirstOf (placed uses.now.names.tree.now) suspects.now) }
{
    let mut first = None;
    for suspect in suspects {
        first = sooner(alloc, uses, first, suspect.0, suspect.1)?;
    }
    Ok(first)
}

// The first of an earlier result and one more subcomponent, if the subcomponent leads back. A subcomponent
// after the earlier result is not tested.
fn sooner(
    alloc: Global,
    uses: &Uses<'_>,
    first: Option<PackageFault>,
    within: usize,
    sub: usize,
) -> Result<Option<PackageFault>, AllocError>
    ensures { IfOk result (IsSooner (placed uses.now.names.tree.now) first within sub) }
{
    let Some(declared) = uses.subcomponent(within, sub) else {
        return Ok(first);
    };
    if !comes_first(&first, declared.name.at)
        || !leads_back(alloc, uses.containment(), within, sub)?
    {
        return Ok(first);
    }
    Ok(Some(PackageFault::Recursive {
        name: Text::from_str(alloc, declared.name.spelling.as_str())?,
        at: declared.name.at,
    }))
}

// Whether a position is before the position of the result so far.
fn comes_first(first: &Option<PackageFault>, at: usize) -> bool
    ensures { result ≡ is_sooner at first.now }
{
    match first {
        Some(fault) => at < fault.place(),
        None => true,
    }
}
