//! The links, feeds and taps of a package without faults.
ghost use Rattle.std.specs.Prelude.{◌≡◌, ◌+◌, true, [], reverse, IfOk, OnOk};
ghost use Rattle.aadl_chains.specs.proof.PortsJoinedInside.{is_in_at};
ghost use Rattle.aadl_chains.specs.LinksFeedsAndTaps.{IsLink, IsFeed, IsTap, TargetBefore, PortBefore};
ghost use Rattle.aadl_instance.specs.proof.ChainsSoFar as shown;
ghost use Rattle.aadl_instance.specs.proof.ChainSearchStates.{tree_of, paths_in, IsReady, IsNumbered, IsNode, Shows};
ghost use Rattle.aadl_instance.specs.proof.ChainSearchStates.{ShowsInto, ShowsTaps};
ghost use Rattle.aadl_instance.specs.proof.ChainsSoFar.{HasPort, IsChainStart};

use crate::chain::{Chain, ChainEnd, ConnectionAt};
use crate::chain_search_context::{ChainSearchContext, NumberedThread};
use crate::numbered_ends::{node_end, root_end, start_end};
use aadl_chains::{ChainRoute, ChainStart, trace_back, trace_tap};
use aadl_uses::standing;
use pals_base::{ItemList, NodeNo};
use std::alloc::{AllocError, Global};

/// The connection chains into threads.
#[derive(Drop)]
pub struct Incoming {
    /// The chains from threads.
    pub links: ItemList<Chain>,
    /// The chains from the root.
    pub feeds: ItemList<Chain>,
}

/// Returns all links and feeds, in the order of their targets. Errors: out of memory.
pub fn incoming_of(alloc: Global, network: &ChainSearchContext<'_>) -> Result<Incoming, AllocError>
    requires { IsReady network.now }
    ensures links { IfOk result (λ incoming. Shows network.now IsLink TargetBefore incoming.links) }
    ensures feeds { IfOk result (λ incoming. Shows network.now IsFeed TargetBefore incoming.feeds) }
{
    let mut incoming = Incoming {
        links: ItemList::new(alloc),
        feeds: ItemList::new(alloc),
    };
    for (number, thread) in network.threads.iter().enumerate() {
        add_thread(
            alloc,
            &mut incoming,
            network,
            NodeNo(number as u32),
            thread.as_slice(),
        )?;
    }
    Ok(incoming)
}

// Adds the chains into the thread with a number and a path.
fn add_thread(
    alloc: Global,
    incoming: &mut Incoming,
    network: &ChainSearchContext<'_>,
    number: NodeNo,
    path: &[usize],
) -> Result<(), AllocError>
    requires ready { IsReady network.now }
    requires thread { IsNumbered network.now number.0 (reverse path.now) }
    ensures { OnOk result (ShowsInto network.now number.0 0 incoming.old
        → ShowsInto network.now (number.0 + 1) 0 incoming.new) }
{
    let Some(declaration) = standing(&network.wires.uses, network.root, path) else {
        unreachable!();
    };
    let node = NumberedThread {
        number,
        path,
        declaration,
    };
    for port in 0..network.wires.uses.ports(declaration).len() {
        add_port(alloc, incoming, network, &node, port)?;
    }
    Ok(())
}

// Adds the chain into a port of a thread, if there is one.
fn add_port(
    alloc: Global,
    incoming: &mut Incoming,
    network: &ChainSearchContext<'_>,
    node: &NumberedThread<'_>,
    port: usize,
) -> Result<(), AllocError>
    requires ready { IsReady network.now }
    requires node { IsNode network.now node.now }
    ensures { OnOk result (ShowsInto network.now node.now.number.0 port incoming.old
        → ShowsInto network.now node.now.number.0 (port + 1) incoming.new) }
{
    if network.wires.is_in(node.declaration, port) {
        add_chain(alloc, incoming, network, node, port)
    } else {
        Ok(())
    }
}

// Adds the chain into an in port of a thread, if there is one.
fn add_chain(
    alloc: Global,
    incoming: &mut Incoming,
    network: &ChainSearchContext<'_>,
    node: &NumberedThread<'_>,
    port: usize,
) -> Result<(), AllocError>
    requires ready { IsReady network.now }
    requires node { IsNode network.now node.now }
    requires goes_in { is_in_at (tree_of network.now) node.now.declaration port ≡ true }
    ensures { OnOk result (ShowsInto network.now node.now.number.0 port incoming.old
        → ShowsInto network.now node.now.number.0 (port + 1) incoming.new) }
{
    let wires = network.wires;
    match trace_back(alloc, wires, network.order, network.root, node.path, port)? {
        Some(route) => {
            let to = node_end(network, node, port);
            let chain = chain_by(alloc, network, &route, to)?;
            incoming.push(&route.begin, chain)
        }
        None => Ok(()),
    }
}

impl Incoming {
    ghost use Rattle.std.specs.Prelude.{OnOk};
    ghost use Rattle.aadl_instance.specs.proof.ChainsSoFar.{with_chain};

    // Adds a chain to the links or feeds, by its first port.
    fn push(&mut self, begin: &ChainStart, chain: Chain) -> Result<(), AllocError>
        ensures { OnOk result (self.new ≡ with_chain self.old begin.now chain) }
    {
        match begin {
            ChainStart::Root(_) => self.feeds.push(chain),
            ChainStart::Thread(_, _) => self.links.push(chain),
        }
    }
}

/// Returns all taps, in the order of their target ports. Errors: out of memory.
pub fn taps_of(
    alloc: Global,
    network: &ChainSearchContext<'_>,
) -> Result<ItemList<Chain>, AllocError>
    requires { IsReady network.now }
    ensures { IfOk result (λ taps. Shows network.now IsTap PortBefore taps) }
{
    let mut taps = ItemList::new(alloc);
    for port in 0..network.wires.uses.ports(network.root).len() {
        add_tap(alloc, &mut taps, network, port)?;
    }
    Ok(taps)
}

// Adds the tap to a port of the root, if there is one.
fn add_tap(
    alloc: Global,
    taps: &mut ItemList<Chain>,
    network: &ChainSearchContext<'_>,
    port: usize,
) -> Result<(), AllocError>
    requires ready { IsReady network.now }
    requires port { HasPort (tree_of network.now) network.now.root (record { path = []; port = port }) }
    ensures { OnOk result (ShowsTaps network.now port taps.old
        → ShowsTaps network.now (port + 1) taps.new) }
{
    let wires = network.wires;
    if wires.is_in(network.root, port) {
        return Ok(());
    }
    match trace_tap(alloc, wires, network.order, network.root, port)? {
        Some(route) => {
            let to = root_end(alloc, network, port)?;
            taps.push(chain_by(alloc, network, &route, to)?)
        }
        None => Ok(()),
    }
}

// The chain of a traced route and its last port.
fn chain_by(
    alloc: Global,
    network: &ChainSearchContext<'_>,
    route: &ChainRoute,
    to: ChainEnd,
) -> Result<Chain, AllocError>
    requires ready { IsReady network.now }
    requires begins { IsChainStart (tree_of network.now) network.now.root route.now.begin }
    ensures { IfOk result (λ chain. chain ≡ shown.chain_by (tree_of network.now) network.now.root (paths_in network.now)
        route.now to) }
{
    Ok(Chain {
        from: start_end(alloc, network, &route.begin)?,
        to,
        carrier: ConnectionAt {
            declaration: route.declaration,
            connection: route.connection,
        },
    })
}
