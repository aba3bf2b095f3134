//! The limit on links, checked on declarations without flattening the design.
ghost use Rattle.std.specs.Prelude.{◌≡◌, ◌↔◌, ◌<◌, ℕ, false, Some, length, slice_get, slice_index, slice_set, IfOk};
ghost use Rattle.std.specs.Prelude.{IsTrue};
ghost use Rattle.pals_base.specs.declared.limits.TheConstants.{LINKS};
ghost use Rattle.aadl_tree.specs.proof.PackageViews.{placed};
ghost use Rattle.aadl_tree.specs.declared.declarations.Direction.TheVariants as directions;
ghost use Rattle.aadl_names.specs.declared.fault.PackageFault.{PackageFault};
ghost use Rattle.aadl_uses.specs.proof.PackageContainment.{containment};
ghost use Rattle.aadl_uses.specs.ContainmentAndUse.{below};
ghost use Rattle.aadl_uses.specs.ThreadsBelow.{MoreThan};
ghost use Rattle.aadl_uses.specs.PortsOfConnections.{connection_ports_at};
ghost use Rattle.aadl_uses.specs.proof.ContainmentOrders.{IsOrder};
ghost use Rattle.aadl_uses.specs.proof.MarkedPathCounts as spec;
ghost use Rattle.aadl_chains.specs.proof.PortsJoinedInside.{IsInside, is_thread_at};
ghost use Rattle.aadl_chains.specs.ChainFaults.{IsEndFault};
ghost use Rattle.aadl_chains.specs.proof.PermittedConnections.{ArePermitted};
ghost use Rattle.aadl_chains.specs.proof.LimitedCounts.{IsNumber};
ghost use Rattle.aadl_chains.specs.LinksFeedsAndTaps.{IsLink, OtherTarget};
ghost use Rattle.aadl_chains.specs.proof.EnteredPortCountTables.{AreTakenBelow};
ghost use Rattle.aadl_chains.specs.proof.EnteredThreadPorts.{EndsLink, IsLinkBelow, FromThread};

use crate::JoinedInside;
use crate::entered_port_counts::PortCounts;
use aadl_names::NumberedPort;
use aadl_tree::Direction;
use aadl_uses::marked_counts::add_up_to;
use aadl_uses::{ConnectionPorts, PackageConnections};
use indexmap::IndexSet;
use pals_base::limits::LINKS;
use std::alloc::{AllocError, Global};

/// Returns whether there are more links below a root than a design may have. Precondition: the names of the
/// package have no fault, no implementation contains itself, and each connection in use is the only one into
/// its target. Errors: out of memory.
pub fn has_too_many_links(
    alloc: Global,
    wires: &PackageConnections<'_>,
    order: &IndexSet<usize>,
    root: usize,
) -> Result<bool, AllocError>
    requires order { IsOrder (containment (placed wires.now.uses.names.tree.now)) order.now.keys }
    requires declared { ArePermitted (placed wires.now.uses.names.tree.now) }
    requires ends { (fault : PackageFault) → ¬ IsEndFault (placed wires.now.uses.names.tree.now) root fault }
    requires root { root < length (placed wires.now.uses.names.tree.now).declarations }
    requires no_thread { is_thread_at (placed wires.now.uses.names.tree.now) root ≡ false }
    ensures { IfOk result (λ more. IsTrue more
        ↔ MoreThan LINKS (IsLink (placed wires.now.uses.names.tree.now) root) OtherTarget) }
{
    let counts = link_counts(alloc, wires, order, LINKS + 1)?;
    Ok(count_at(counts.as_slice(), root) > LINKS)
}

// The two ends of connections between subcomponents: for each in port, the number of threads' in ports that it
// leads to; and the out ports that carry a thread's value.
#[derive(Clone, Copy)]
struct LinkEnds<'c> {
    takes: &'c PortCounts,
    gives: &'c JoinedInside,
}

// The number of links below each declaration; the limit if there are more.
fn link_counts(
    alloc: Global,
    wires: &PackageConnections<'_>,
    order: &IndexSet<usize>,
    limit: usize,
) -> Result<Vec<usize>, AllocError>
    requires order { IsOrder (containment (placed wires.now.uses.names.tree.now)) order.now.keys }
    requires declared { ArePermitted (placed wires.now.uses.names.tree.now) }
    ensures { IfOk result (λ counts. (n : ℕ) → n < length (containment (placed wires.now.uses.names.tree.now))
        → IsNumber limit (EndsLink (placed wires.now.uses.names.tree.now) n) (slice_index counts.items n)) }
{
    let takes = PortCounts::of(alloc, wires, order, limit)?;
    let gives = JoinedInside::of(alloc, wires, order, Direction::Out)?;
    let ends = LinkEnds {
        takes: &takes,
        gives: &gives,
    };
    let mut counts = zeros(alloc, wires.uses.len())?;
    for at in 0..order.len() {
        if let Some(number) = order.get_index(at) {
            let number = *number;
            let count = links_below(wires, &ends, counts.as_slice(), number, limit);
            put(&mut counts, number, count);
        }
    }
    Ok(counts)
}

// A list of `len` zeros.
fn zeros(alloc: Global, len: usize) -> Result<Vec<usize>, AllocError>
    ensures { IfOk result (λ counts. length counts.items ≡ len) }
{
    let mut counts = Vec::new(alloc);
    for _at in 0..len {
        counts.push(0)?;
    }
    Ok(counts)
}

// Replaces a count by another.
fn put(counts: &mut Vec<usize>, number: usize, count: usize)
    requires { number < length counts.old.items }
    ensures { counts.new.items ≡ slice_set counts.old.items number count }
{
    counts[number] = count;
}

// The number of links below a declaration, from the numbers of its subcomponents.
fn links_below(
    wires: &PackageConnections<'_>,
    ends: &LinkEnds<'_>,
    counts: &[usize],
    number: usize,
    limit: usize,
) -> usize
    requires declared { ArePermitted (placed wires.now.uses.names.tree.now) }
    requires takes { AreTakenBelow (placed wires.now.uses.names.tree.now) limit ends.now.takes.now number }
    requires direction { ends.now.gives.now.direction ≡ directions.Out }
    requires gives { IsInside (placed wires.now.uses.names.tree.now) directions.Out ends.now.gives.now.ports }
    requires counts { (s m : ℕ) → below (placed wires.now.uses.names.tree.now) number s ≡ Some m
        → IsNumber limit (EndsLink (placed wires.now.uses.names.tree.now) m) (slice_index counts.now m) }
    ensures { IsNumber limit (EndsLink (placed wires.now.uses.names.tree.now) number) result }
{
    let deeper = links_deeper(wires, counts, number, limit);
    let carried = links_carried(wires, ends, number, limit);
    add_up_to(limit, deeper, carried)
}

// The links below its subcomponents.
fn links_deeper(
    wires: &PackageConnections<'_>,
    counts: &[usize],
    number: usize,
    limit: usize,
) -> usize
    requires { (s m : ℕ) → below (placed wires.now.uses.names.tree.now) number s ≡ Some m
        → IsNumber limit (EndsLink (placed wires.now.uses.names.tree.now) m) (slice_index counts.now m) }
    ensures { IsNumber limit (λ port. (s : ℕ) × IsLinkBelow (placed wires.now.uses.names.tree.now) number s port)
        result }
{
    let mut count = 0;
    for target in wires.uses.targets(number) {
        count = add_up_to(limit, count, count_of(counts, *target));
    }
    count
}

// The links that its connections carry.
fn links_carried(
    wires: &PackageConnections<'_>,
    ends: &LinkEnds<'_>,
    number: usize,
    limit: usize,
) -> usize
    requires declared { ArePermitted (placed wires.now.uses.names.tree.now) }
    requires takes { AreTakenBelow (placed wires.now.uses.names.tree.now) limit ends.now.takes.now number }
    requires direction { ends.now.gives.now.direction ≡ directions.Out }
    requires gives { IsInside (placed wires.now.uses.names.tree.now) directions.Out ends.now.gives.now.ports }
    ensures { IsNumber limit (λ port. (k : ℕ) × FromThread (placed wires.now.uses.names.tree.now) number k port)
        result }
{
    let mut count = 0;
    for (at, wire) in wires.wires(number).iter().enumerate() {
        let more = carried(wires, ends, number, at, *wire, limit);
        count = add_up_to(limit, count, more);
    }
    count
}

// The links that one connection carries.
fn carried(
    wires: &PackageConnections<'_>,
    ends: &LinkEnds<'_>,
    number: usize,
    at: usize,
    wire: ConnectionPorts,
    limit: usize,
) -> usize
    requires wire { slice_get (connection_ports_at (placed wires.now.uses.names.tree.now) number) at ≡ Some wire }
    requires declared { ArePermitted (placed wires.now.uses.names.tree.now) }
    requires takes { AreTakenBelow (placed wires.now.uses.names.tree.now) limit ends.now.takes.now number }
    requires direction { ends.now.gives.now.direction ≡ directions.Out }
    requires gives { IsInside (placed wires.now.uses.names.tree.now) directions.Out ends.now.gives.now.ports }
    ensures { IsNumber limit (FromThread (placed wires.now.uses.names.tree.now) number at) result }
{
    match wire.source {
        Some(source) => match source {
            NumberedPort::Inner(sub, port) => {
                if ends.gives.reaches(wires, number, sub, port) {
                    ends.takes.through(wires, number, at, wire, limit)
                } else {
                    0
                }
            }
            NumberedPort::Own(_) => 0,
        },
        None => 0,
    }
}

// The count of the declaration that a subcomponent names.
fn count_of(counts: &[usize], target: Option<usize>) -> usize
    ensures { result ≡ spec.count_of counts.now target }
{
    match target {
        Some(number) => count_at(counts, number),
        None => 0,
    }
}

// The count of a declaration.
fn count_at(counts: &[usize], number: usize) -> usize
    ensures { result ≡ slice_index counts.now number }
{
    match counts.get(number) {
        Some(count) => *count,
        None => 0,
    }
}
