//! The paths from declarations in use to the threads below them.
ghost use Rattle.std.specs.Prelude.{◌<◌, ◌↔◌, ℕ, Contains, IfOk, length, map, reverse};
ghost use Rattle.aadl_tree.specs.proof.PackageViews.{placed};
ghost use Rattle.aadl_uses.specs.ContainmentAndUse.{IsInUse};
ghost use Rattle.aadl_uses.specs.proof.PackageContainment.{containment};
ghost use Rattle.aadl_uses.specs.ThreadsBelow.{Lists, IsThreadAt, PathBefore};
ghost use Rattle.aadl_uses.specs.proof.ContainmentOrders.{IsOrder};
ghost use Rattle.aadl_uses.specs.proof.MarkedPathLists.{paths_from};

use crate::{Paths, Uses, paths_below};
use indexmap::IndexSet;
use pals_base::NoMemory;
use std::alloc::Global;

/// Returns the paths from each declaration in use to the threads below it. The paths from the root lead to all
/// threads of its instance model, in depth-first order of declaration. Errors: out of memory.
pub fn thread_paths(
    alloc: Global,
    uses: &Uses<'_>,
    order: &IndexSet<usize>,
    used: &IndexSet<usize>,
    root: usize,
) -> Result<Paths, NoMemory>
    requires order { IsOrder (containment (placed uses.now.names.tree.now)) order.now.keys }
    requires used { (n : ℕ) → Contains used.now.keys n ↔ IsInUse (placed uses.now.names.tree.now) root n }
    requires root { root < length (placed uses.now.names.tree.now).declarations }
    ensures { IfOk result (λ paths. Lists (IsThreadAt (placed uses.now.names.tree.now) root) PathBefore
        (map reverse (paths_from paths root))) }
{
    let marks = uses.thread_marks(alloc)?;
    paths_below(alloc, uses.containment(), marks.as_slice(), order, used)
}
