//! The limits of a design, and the first one that is exceeded.
ghost use Rattle.std.specs.Prelude.{◌≡◌, ◌↔◌, ◌<◌, ℕ, false, length, Contains, IfOk, IsTrue};
ghost use Rattle.aadl_tree.specs.proof.PackageViews.{placed};
ghost use Rattle.aadl_names.specs.declared.fault.PackageFault.{PackageFault};
ghost use Rattle.aadl_uses.specs.proof.PackageContainment.{containment};
ghost use Rattle.aadl_uses.specs.ContainmentAndUse.{IsInUse};
ghost use Rattle.aadl_chains.specs.ChainFaults.{IsEndFault};
ghost use Rattle.aadl_chains.specs.proof.PermittedConnections.{ArePermitted};
ghost use Rattle.aadl_uses.specs.proof.ContainmentOrders.{IsOrder};
ghost use Rattle.aadl_chains.specs.proof.PortsJoinedInside.{is_thread_at};
ghost use Rattle.aadl_instance.specs.proof.Limits as spec;
ghost use Rattle.aadl_instance.specs.proof.Limits.{IsExceeded, IsFirstExceeded};

use crate::{ThreadPart, has_too_long_path, has_too_many};
use aadl_chains::has_too_many_links;
use aadl_uses::PackageConnections;
use indexmap::IndexSet;
use std::alloc::{AllocError, Global};

/// A limited quantity of a design.
#[derive(Clone, Copy)]
pub enum Limit {
    Components,
    Links,
    Ports,
    Variables,
    States,
    Path,
}

impl Limit {
    /// Returns its name in a fault.
    pub fn name(self) -> &'static str
        ensures { result.now ≡ spec.name_of self }
    {
        match self {
            Limit::Components => "components",
            Limit::Links => "links",
            Limit::Ports => "ports",
            Limit::Variables => "variables",
            Limit::States => "states",
            Limit::Path => "path",
        }
    }
}

/// All limits, in the order of their checks.
const LIMITS: [Limit; 6] = [
    Limit::Components,
    Limit::Links,
    Limit::Ports,
    Limit::Variables,
    Limit::States,
    Limit::Path,
];

/// Returns the first limit that a design exceeds, or `None`. Precondition: the names of the package have no
/// fault, no implementation contains itself, and each connection in use is on a connection chain and is the
/// only one into its target. Errors: out of memory.
pub fn first_limit(
    alloc: Global,
    wires: &PackageConnections<'_>,
    order: &IndexSet<usize>,
    used: &IndexSet<usize>,
    root: usize,
) -> Result<Option<Limit>, AllocError>
    requires order { IsOrder (containment (placed wires.now.uses.names.tree.now)) order.now.keys }
    requires used { (n : ℕ) → Contains used.now.keys n ↔ IsInUse (placed wires.now.uses.names.tree.now) root n }
    requires declared { ArePermitted (placed wires.now.uses.names.tree.now) }
    requires ends { (fault : PackageFault) → ¬ IsEndFault (placed wires.now.uses.names.tree.now) root fault }
    requires root { root < length (placed wires.now.uses.names.tree.now).declarations }
    requires no_thread { is_thread_at (placed wires.now.uses.names.tree.now) root ≡ false }
    ensures { IfOk result (IsFirstExceeded (placed wires.now.uses.names.tree.now) root) }
{
    let limits = LIMITS;
    for limit in &limits {
        if is_passed(alloc, wires, order, used, root, *limit)? {
            return Ok(Some(*limit));
        }
    }
    Ok(None)
}

// Whether a design exceeds a limit.
fn is_passed(
    alloc: Global,
    wires: &PackageConnections<'_>,
    order: &IndexSet<usize>,
    used: &IndexSet<usize>,
    root: usize,
    limit: Limit,
) -> Result<bool, AllocError>
    requires order { IsOrder (containment (placed wires.now.uses.names.tree.now)) order.now.keys }
    requires used { (n : ℕ) → Contains used.now.keys n ↔ IsInUse (placed wires.now.uses.names.tree.now) root n }
    requires declared { ArePermitted (placed wires.now.uses.names.tree.now) }
    requires ends { (fault : PackageFault) → ¬ IsEndFault (placed wires.now.uses.names.tree.now) root fault }
    requires root { root < length (placed wires.now.uses.names.tree.now).declarations }
    requires no_thread { is_thread_at (placed wires.now.uses.names.tree.now) root ≡ false }
    ensures { IfOk result (λ passed. IsTrue passed ↔ IsExceeded (placed wires.now.uses.names.tree.now) root limit) }
{
    match limit {
        Limit::Components => wires.uses.has_too_many_threads(alloc, order, root),
        Limit::Links => has_too_many_links(alloc, wires, order, root),
        Limit::Ports => Ok(has_too_many(wires, used, ThreadPart::Ports)),
        Limit::Variables => Ok(has_too_many(wires, used, ThreadPart::Variables)),
        Limit::States => Ok(has_too_many(wires, used, ThreadPart::States)),
        Limit::Path => has_too_long_path(alloc, &wires.uses, order, root),
    }
}
