//! The declarations below a declaration.
ghost use Rattle.std.specs.Prelude.{◌<◌, ◌↔◌, ℕ, length, IfOk, OnOk, Contains};
ghost use Rattle.aadl_uses.specs.proof.ContainmentGraphs.{AreAdded, IsReached, IsWithin};

use crate::containment::Containment;
use indexmap::IndexSet;
use std::alloc::{AllocError, Global};

/// Returns the declarations that a declaration reaches through subcomponents, including itself. Errors: out of
/// memory.
pub fn reached(
    alloc: Global,
    graph: &Containment,
    from: usize,
) -> Result<IndexSet<usize>, AllocError>
    requires within { IsWithin graph.now }
    requires from { from < length graph.now }
    ensures { IfOk result (λ found. (n : ℕ) → Contains found.keys n ↔ IsReached graph.now from n) }
{
    let mut found = IndexSet::new(alloc);
    found.insert(from)?;
    for at in 0..graph.len() {
        if let Some(number) = found.get_index(at) {
            let number = *number;
            add_all(&mut found, graph.targets(number))?;
        }
    }
    Ok(found)
}

// Adds the declared targets.
fn add_all(found: &mut IndexSet<usize>, targets: &[Option<usize>]) -> Result<(), AllocError>
    ensures { OnOk result (AreAdded targets.now found.old.keys found.new.keys) }
{
    for target in targets {
        if let Some(number) = target {
            found.insert(*number)?;
        }
    }
    Ok(())
}
