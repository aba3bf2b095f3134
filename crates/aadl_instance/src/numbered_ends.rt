//! The ends of connection chains, with the numbers of their threads and ports.
ghost use Rattle.std.specs.Prelude.{◌≡◌, ◌≤◌, Some, [], length, reverse, slice_get, AllPairs, Contains, IfOk};
ghost use Rattle.aadl_uses.specs.ThreadsBelow.{path_before, IsThreadAt, PathBefore};
ghost use Rattle.aadl_chains.specs.proof.TracedChains.{begin_port};
ghost use Rattle.aadl_instance.specs.InstancesByNumbers.{end_in};
ghost use Rattle.aadl_instance.specs.proof.ChainSearchStates.{tree_of, paths_in, IsReady, IsNode};
ghost use Rattle.aadl_instance.specs.proof.ChainsSoFar.{paths_of, HasPort, IsChainStart};

use crate::chain::ChainEnd;
use crate::chain_search_context::{ChainSearchContext, NumberedThread};
use aadl_chains::ChainStart;
use aadl_uses::standing;
use pals_base::{NodeNo, Text};
use std::alloc::{AllocError, Global};

/// Returns the first port of a connection chain. Errors: out of memory.
pub fn start_end(
    alloc: Global,
    network: &ChainSearchContext<'_>,
    begin: &ChainStart,
) -> Result<ChainEnd, AllocError>
    requires ready { IsReady network.now }
    requires begins { IsChainStart (tree_of network.now) network.now.root begin.now }
    ensures { IfOk result (λ end. end ≡ end_in (tree_of network.now) network.now.root (paths_in network.now)
        (begin_port begin.now)) }
{
    match begin {
        ChainStart::Root(port) => root_end(alloc, network, *port),
        ChainStart::Thread(path, port) => Ok(thread_end(network, path.as_slice(), *port)),
    }
}

/// Returns a port of the root, by its number. Precondition: the root has a port with this number. Errors: out
/// of memory.
pub fn root_end(
    alloc: Global,
    network: &ChainSearchContext<'_>,
    port: usize,
) -> Result<ChainEnd, AllocError>
    requires { HasPort (tree_of network.now) network.now.root (record { path = []; port = port }) }
    ensures { IfOk result (λ end. end ≡ end_in (tree_of network.now) network.now.root (paths_in network.now)
        (record { path = []; port = port })) }
{
    let feature = &network.wires.uses.ports(network.root)[port];
    Ok(ChainEnd::Root {
        name: Text::from_str(alloc, feature.name.spelling.as_str())?,
    })
}

// A port of the thread at a path.
fn thread_end(network: &ChainSearchContext<'_>, path: &[usize], port: usize) -> ChainEnd
    requires ready { IsReady network.now }
    requires thread { IsThreadAt (tree_of network.now) network.now.root (reverse path.now) }
    requires port { HasPort (tree_of network.now) network.now.root (record { path = reverse path.now; port = port }) }
    ensures { result ≡ end_in (tree_of network.now) network.now.root (paths_in network.now)
        (record { path = reverse path.now; port = port }) }
{
    let Some(declaration) = standing(&network.wires.uses, network.root, path) else {
        unreachable!();
    };
    let node = NumberedThread {
        number: node_of(network.threads, path),
        path,
        declaration,
    };
    node_end(network, &node, port)
}

/// Returns a port of a thread, by its number among the ports of its direction.
pub fn node_end(
    network: &ChainSearchContext<'_>,
    node: &NumberedThread<'_>,
    port: usize,
) -> ChainEnd
    requires ready { IsReady network.now }
    requires node { IsNode network.now node.now }
    requires port { HasPort (tree_of network.now) network.now.root
        (record { path = reverse node.now.path.now; port = port }) }
    ensures { result ≡ end_in (tree_of network.now) network.now.root (paths_in network.now)
        (record { path = reverse node.now.path.now; port = port }) }
{
    let of_type = network.wires.uses.type_number(node.declaration);
    let among = network.numbers.get(of_type, port);
    ChainEnd::Thread {
        node: node.number,
        port: among as u32,
    }
}

// The number of the thread at a path: the number of threads before it.
fn node_of(threads: &[Vec<usize>], path: &[usize]) -> NodeNo
    requires in_order { AllPairs PathBefore (paths_of threads.now) }
    requires among { Contains (paths_of threads.now) (reverse path.now) }
    requires few { length threads.now ≤ u32.MAX }
    ensures { slice_get (paths_of threads.now) result.0 ≡ Some (reverse path.now) }
{
    let before = threads.partition_point(|thread| comes_before(thread.as_slice(), path));
    NodeNo(before as u32)
}

// Whether a path precedes another one.
fn comes_before(path: &[usize], other: &[usize]) -> bool
    ensures { result ≡ path_before path.now other.now }
{
    for at in 0..other.len() {
        if at == path.len() {
            return true;
        }
        if path[at] != other[at] {
            return path[at] < other[at];
        }
    }
    false
}
