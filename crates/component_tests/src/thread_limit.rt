//! Whether a design has more threads than a design may have.
ghost use Rattle.std.specs.Prelude.{IfOk, IfSome};
ghost use Rattle.aadl_tree.specs.proof.PackageViews.{placed};
ghost use Rattle.aadl_uses.specs.proof.PackageContainment.{containment};
ghost use Rattle.aadl_uses.specs.proof.ContainmentOrders.{IsOrder};

use crate::cycles_and_uses::uses;
use aadl_tree::PackageTree;
use aadl_uses::{Uses, first_recursive};
use indexmap::IndexSet;
use std::alloc::{AllocError, Global};

// The declarations, each after the declarations that it contains; nothing if one contains itself.
fn order_of(alloc: Global, uses: &Uses<'_>) -> Result<Option<IndexSet<usize>>, AllocError>
    ensures { IfOk result (λ found. IfSome found
        (λ order. IsOrder (containment (placed uses.now.names.tree.now)) order.keys)) }
{
    match first_recursive(alloc, uses)? {
        None => Ok(Some(uses.order(alloc)?)),
        Some(_fault) => Ok(None),
    }
}

// Whether the last declaration has more threads below it than a design may have.
fn has_too_many(alloc: Global, uses: &Uses<'_>, order: &IndexSet<usize>) -> Result<bool, AllocError>
    requires { IsOrder (containment (placed uses.now.names.tree.now)) order.now.keys }
{
    let root = uses.len().saturating_sub(1);
    if root < uses.len() {
        uses.has_too_many_threads(alloc, order, root)
    } else {
        Ok(false)
    }
}

fn count(alloc: Global, uses: &Uses<'_>) -> Result<&'static str, AllocError> {
    let Some(order) = order_of(alloc, uses)? else {
        return Ok("endless\n");
    };
    Ok(if has_too_many(alloc, uses, &order)? {
        "too many\n"
    } else {
        "few enough\n"
    })
}

/// Whether the last declaration has more threads below it than a design may have.
pub fn counted(alloc: Global, tree: &PackageTree) -> Result<String, AllocError> {
    let uses = uses(alloc, tree)?;
    String::from_str(alloc, count(alloc, &uses)?)
}
