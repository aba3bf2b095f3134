//! Backward traces: connection chains, traced back from their last port.
ghost use Rattle.std.specs.Prelude.{◌≡◌, ◌++◌, ◌∷◌, ◌<◌, ℕ, false, take, reverse, length, None, Some, [], slice_index};
ghost use Rattle.std.specs.Prelude.{IfOk};
ghost use Rattle.aadl_tree.specs.proof.PackageViews.{placed};
ghost use Rattle.aadl_names.specs.declared.numbered_port.NumberedPort.TheVariants.{Own};
ghost use Rattle.aadl_uses.specs.ContainmentAndUse as uses;
ghost use Rattle.aadl_uses.specs.proof.PackageContainment as inner;
ghost use Rattle.aadl_uses.specs.proof.ContainmentOrders.{IsOrder};
ghost use Rattle.aadl_chains.specs.proof.PortsJoinedInside.{is_thread_at, is_in_at};
ghost use Rattle.aadl_chains.specs.proof.PermittedConnections.{ArePermitted};
ghost use Rattle.aadl_chains.specs.proof.UpwardWalks as walks;
ghost use Rattle.aadl_chains.specs.proof.UpwardWalks.{OneEach, IsThreadPort};
ghost use Rattle.aadl_chains.specs.proof.TracedChains.{Descends, Traces, TracesTap};
ghost use Rattle.aadl_chains.specs.proof.WalkResults as spec;
ghost use Rattle.aadl_chains.specs.proof.DownwardSteps.{IsFromInner, IsLower, LeadsDown};

use aadl_names::NumberedPort;
use aadl_uses::{PackageConnections, standing};
use indexmap::IndexSet;
use std::alloc::{AllocError, Global};

/// The first port of a connection chain.
#[derive(Drop)]
pub enum ChainStart {
    /// A port of the root.
    Root(usize),
    /// A port of the thread at the end of a path of subcomponents, which begins with the outermost one.
    Thread(Vec<usize>, usize),
}

/// A connection chain, as its first port and the connection whose properties apply: the connection between two
/// subcomponents, or the one in the root's implementation.
#[derive(Drop)]
pub struct ChainRoute {
    pub begin: ChainStart,
    /// The number of the declaration that contains the connection.
    pub declaration: usize,
    /// The number of the connection there.
    pub connection: usize,
}

/// A connection into a port, and its source.
#[derive(Clone, Copy)]
pub struct ConnectionInto {
    pub declaration: usize,
    pub connection: usize,
    pub source: NumberedPort,
}

/// A connection between two subcomponents of the component at the end of the first `depth` steps of a path, and
/// its source port.
#[derive(Clone, Copy)]
pub struct CrossConnection {
    pub depth: usize,
    pub declaration: usize,
    pub connection: usize,
    pub sub: usize,
    pub port: usize,
}

/// The end of an upward trace from a port.
#[derive(Clone, Copy)]
pub enum WalkResult {
    /// A port without an incoming connection.
    Nowhere,
    /// A port of the root, reached by the last connection, if there was one.
    Root(Option<usize>, usize),
    /// A connection between two subcomponents.
    Crossing(CrossConnection),
}

/// A port of a subcomponent, and the implementation that the subcomponent names.
#[derive(Clone, Copy)]
pub struct PortBelow {
    pub sub: usize,
    pub number: usize,
    pub port: usize,
}

/// Returns the link or feed that ends at an in port of the thread at a path, if there is one. Precondition: the
/// names of the package have no fault, no implementation contains itself, and each connection in use is the
/// only one into its target. Errors: out of memory.
pub fn trace_back(
    alloc: Global,
    wires: &PackageConnections<'_>,
    order: &IndexSet<usize>,
    root: usize,
    path: &[usize],
    port: usize,
) -> Result<Option<ChainRoute>, AllocError>
    requires order { IsOrder (inner.containment (placed wires.now.uses.names.tree.now)) order.now.keys }
    requires declared { ArePermitted (placed wires.now.uses.names.tree.now) }
    requires one { OneEach (placed wires.now.uses.names.tree.now) root }
    requires no_thread { is_thread_at (placed wires.now.uses.names.tree.now) root ≡ false }
    requires thread { IsThreadPort (placed wires.now.uses.names.tree.now) root
        (record { path = reverse path.now; port = port }) }
    ensures { IfOk result (Traces (placed wires.now.uses.names.tree.now) root
        (record { path = reverse path.now; port = port })) }
{
    match climb(wires, root, path, port) {
        WalkResult::Nowhere => Ok(None),
        WalkResult::Root(last, from) => Ok(route_from_root(root, last, from)),
        WalkResult::Crossing(crossed) => {
            let source = NumberedPort::Inner(crossed.sub, crossed.port);
            let lower = lower_of(wires, crossed.declaration, source);
            let way = way_to(alloc, path, crossed.depth, crossed.sub)?;
            let begin = descend(wires, order, way, lower.number, lower.port)?;
            Ok(route_from(begin, crossed.declaration, crossed.connection))
        }
    }
}

/// Returns the tap that ends at an out port of the root, if there is one. Precondition and errors as in
/// [`trace_back`].
pub fn trace_tap(
    alloc: Global,
    wires: &PackageConnections<'_>,
    order: &IndexSet<usize>,
    root: usize,
    port: usize,
) -> Result<Option<ChainRoute>, AllocError>
    requires order { IsOrder (inner.containment (placed wires.now.uses.names.tree.now)) order.now.keys }
    requires declared { ArePermitted (placed wires.now.uses.names.tree.now) }
    requires one { OneEach (placed wires.now.uses.names.tree.now) root }
    requires no_thread { is_thread_at (placed wires.now.uses.names.tree.now) root ≡ false }
    requires out { is_in_at (placed wires.now.uses.names.tree.now) root port ≡ false }
    ensures { IfOk result (TracesTap (placed wires.now.uses.names.tree.now) root (record { path = []; port = port })) }
{
    match wires.connection_into(root, NumberedPort::Own(port)) {
        Some(from) => {
            let lower = lower_of(wires, root, from.1);
            let path = way_to(alloc, &[], 0, lower.sub)?;
            let begin = descend(wires, order, path, lower.number, lower.port)?;
            Ok(route_from(begin, root, from.0))
        }
        None => Ok(None),
    }
}

// The connection chain from a port of the root through a connection, if there is one.
fn route_from_root(root: usize, last: Option<usize>, port: usize) -> Option<ChainRoute>
    ensures { result ≡ spec.route_from_root root last port }
{
    match last {
        Some(connection) => Some(ChainRoute {
            begin: ChainStart::Root(port),
            declaration: root,
            connection,
        }),
        None => None,
    }
}

// The connection chain from a first port, if there is one, through a connection.
fn route_from(
    begin: Option<ChainStart>,
    declaration: usize,
    connection: usize,
) -> Option<ChainRoute>
    ensures { result ≡ spec.route_from begin declaration connection }
{
    match begin {
        Some(begin) => Some(ChainRoute {
            begin,
            declaration,
            connection,
        }),
        None => None,
    }
}

// Traces upward from a port of the component at a path.
fn climb(wires: &PackageConnections<'_>, root: usize, path: &[usize], port: usize) -> WalkResult
    ensures { spec.climbed path.now result ≡ walks.walk_back (placed wires.now.uses.names.tree.now) root None
        (reverse path.now) port }
{
    let mut depth = path.len();
    let mut here = port;
    let mut last = None;
    'up: while depth > 0 {
        match entry_at(wires, root, path, depth - 1, here) {
            Some(entry) => match entry.source {
                NumberedPort::Own(own) => {
                    depth -= 1;
                    here = own;
                    last = Some(entry.connection);
                }
                NumberedPort::Inner(sub, port) => {
                    return WalkResult::Crossing(CrossConnection {
                        depth: depth - 1,
                        declaration: entry.declaration,
                        connection: entry.connection,
                        sub,
                        port,
                    });
                }
            },
            None => return WalkResult::Nowhere,
        }
    }
    WalkResult::Root(last, here)
}

// The connection into a port of the component at the end of the first `depth` steps of a path and one more
// step.
fn entry_at(
    wires: &PackageConnections<'_>,
    root: usize,
    path: &[usize],
    depth: usize,
    port: usize,
) -> Option<ConnectionInto>
    requires { depth < length path.now }
    ensures { result ≡ spec.entry (placed wires.now.uses.names.tree.now)
        (uses.number_at_path (placed wires.now.uses.names.tree.now) root (reverse (take depth path.now)))
        (slice_index path.now depth) port }
{
    match standing(&wires.uses, root, &path[..depth]) {
        Some(declaration) => entry_into(wires, declaration, path[depth], port),
        None => None,
    }
}

// The connection of a declaration into a port of a subcomponent.
fn entry_into(
    wires: &PackageConnections<'_>,
    declaration: usize,
    sub: usize,
    port: usize,
) -> Option<ConnectionInto>
    ensures { result ≡ spec.entry (placed wires.now.uses.names.tree.now) (Some declaration) sub port }
{
    match wires.connection_into(declaration, NumberedPort::Inner(sub, port)) {
        Some(from) => Some(ConnectionInto {
            declaration,
            connection: from.0,
            source: from.1,
        }),
        None => None,
    }
}

// The first `depth` steps of a path, and one more step.
fn way_to(alloc: Global, path: &[usize], depth: usize, sub: usize) -> Result<Vec<usize>, AllocError>
    ensures { IfOk result (λ way. way.items ≡ take depth path.now ++ sub ∷ []) }
{
    let mut way: Vec<usize> = path.iter().take(depth).copied().collect(alloc)?;
    way.push(sub)?;
    Ok(way)
}

// Traces downward from an out port of the implementation at the end of a path to the thread that provides its
// value.
fn descend(
    wires: &PackageConnections<'_>,
    order: &IndexSet<usize>,
    path: Vec<usize>,
    number: usize,
    port: usize,
) -> Result<Option<ChainStart>, AllocError>
    requires order { IsOrder (inner.containment (placed wires.now.uses.names.tree.now)) order.now.keys }
    requires declared { ArePermitted (placed wires.now.uses.names.tree.now) }
    requires out { is_in_at (placed wires.now.uses.names.tree.now) number port ≡ false }
    ensures { IfOk result (λ begin. (root : ℕ) → OneEach (placed wires.now.uses.names.tree.now) root
        → uses.number_at_path (placed wires.now.uses.names.tree.now) root (reverse path.items) ≡ Some number
        → Descends (placed wires.now.uses.names.tree.now) root (record { path = reverse path.items; port = port })
        begin) }
{
    let mut way = path;
    let mut here = number;
    let mut out = port;
    'down: while !wires.uses.is_thread(here) {
        match step_down(wires, here, out) {
            Some(lower) => {
                way.push(lower.sub)?;
                here = lower.number;
                out = lower.port;
            }
            None => return Ok(None),
        }
    }
    Ok(Some(ChainStart::Thread(way, out)))
}

// The port of a subcomponent that provides the value of an own out port, if there is one.
fn step_down(wires: &PackageConnections<'_>, here: usize, out: usize) -> Option<PortBelow>
    requires declared { ArePermitted (placed wires.now.uses.names.tree.now) }
    requires out { is_in_at (placed wires.now.uses.names.tree.now) here out ≡ false }
    ensures { LeadsDown (placed wires.now.uses.names.tree.now) here out result }
{
    match wires.connection_into(here, NumberedPort::Own(out)) {
        Some(from) => Some(lower_of(wires, here, from.1)),
        None => None,
    }
}

// An out port of a subcomponent, and the implementation that the subcomponent names.
fn lower_of(wires: &PackageConnections<'_>, here: usize, source: NumberedPort) -> PortBelow
    requires { IsFromInner (placed wires.now.uses.names.tree.now) here source }
    ensures { IsLower (placed wires.now.uses.names.tree.now) here source result }
{
    match source {
        NumberedPort::Inner(sub, port) => match wires.uses.below(here, sub) {
            Some(number) => PortBelow { sub, number, port },
            None => unreachable!(),
        },
        NumberedPort::Own(_) => unreachable!(),
    }
}
