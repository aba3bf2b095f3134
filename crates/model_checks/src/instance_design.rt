//! The design of an instance model.
ghost use Rattle.std.specs.Prelude.{◌≡◌, IfOk, OnOk, All, MatchOption, map};
ghost use Rattle.aadl_tree.specs.proof.PackageViews.{placed};
ghost use Rattle.model_violations.specs.proof.UnsortedFindings.{shown};
ghost use Rattle.design_laws.specs.InstanceDesigns as spec;
ghost use Rattle.model_checks.specs.proof.CachedBehaviours.{AreKept};
ghost use Rattle.model_checks.specs.proof.ThreadSizeLimits.{IsWithinLimits};
ghost use Rattle.model_checks.specs.proof.RefusedInstances.{HasNoDesign};

use crate::resolved_behaviours::behaviour;
use aadl_instance::{Chain, ChainEnd, Instance, ThreadAt};
use component_checks::Properties;
use component_checks::root_findings::root_gamma;
use component_checks::thread_rates::{root_period, thread_rate};
use indexmap::IndexMap;
use model_violations::carriers::carrier_of;
use model_violations::ignored_names;
use pals_base::{Adaptor, Behaviour, ItemList, NoMemory, TryClone};
use pals_model::{Component, DesignParts, Feed, Link, Tap};
use std::alloc::Global;

// A component, unless a part of it is rejected, with the cached behaviours for later threads.
fn component(
    alloc: Global,
    properties: &Properties<'_>,
    kept: &mut IndexMap<usize, Behaviour>,
    root: usize,
    thread: &ThreadAt,
) -> Result<Option<Component>, NoMemory>
    requires limits { IsWithinLimits (placed properties.now.uses.now.names.tree.now) thread.now }
    requires rules { spec.HasRules (placed properties.now.uses.now.names.tree.now) thread.now }
    requires kept { AreKept (placed properties.now.uses.now.names.tree.now) kept.old.entries }
    ensures value { IfOk result (λ found. found
        ≡ spec.component_in (placed properties.now.uses.now.names.tree.now) root thread.now) }
    ensures kept { OnOk result (AreKept (placed properties.now.uses.now.names.tree.now) kept.new.entries) }
{
    let Some(rate) = thread_rate(properties, root, thread) else {
        return Ok(None);
    };
    let Some(behaviour) = behaviour(alloc, properties.uses, kept, thread)? else {
        return Ok(None);
    };
    Ok(Some(Component {
        path: thread.path.try_clone(alloc)?,
        rate,
        behaviour,
    }))
}

// The components, unless a part of one is rejected.
fn components(
    alloc: Global,
    properties: &Properties<'_>,
    root: usize,
    threads: &[ThreadAt],
) -> Result<Option<ItemList<Component>>, NoMemory>
    requires limits { All (IsWithinLimits (placed properties.now.uses.now.names.tree.now)) threads.now }
    requires rules { All (spec.HasRules (placed properties.now.uses.now.names.tree.now)) threads.now }
    ensures { IfOk result (λ found. found ≡ spec.all_of
        (map (spec.component_in (placed properties.now.uses.now.names.tree.now) root) threads.now)) }
{
    let mut components = ItemList::new(alloc);
    let mut kept = IndexMap::new(alloc);
    for thread in threads {
        let Some(component) = component(alloc, properties, &mut kept, root, thread)? else {
            return Ok(None);
        };
        components.push(component)?;
    }
    Ok(Some(components))
}

// The adaptor of a connection chain.
fn adaptor(properties: &Properties<'_>, chain: &Chain) -> Option<Adaptor>
    ensures { result ≡ spec.chain_adaptor (placed properties.now.uses.now.names.tree.now) chain.now }
{
    match carrier_of(properties, chain.carrier) {
        Some((_, said)) => said.adaptor.flatten(),
        None => None,
    }
}

// The link of a connection chain, if it leads from a thread to a thread.
fn link(properties: &Properties<'_>, chain: &Chain) -> Option<Link>
    ensures { result ≡ spec.link_in (placed properties.now.uses.now.names.tree.now) chain.now }
{
    let ChainEnd::Thread {
        node: source,
        port: out_port,
    } = &chain.from
    else {
        return None;
    };
    let ChainEnd::Thread {
        node: target,
        port: in_port,
    } = &chain.to
    else {
        return None;
    };
    Some(Link {
        source: *source,
        out_port: *out_port,
        target: *target,
        in_port: *in_port,
        adaptor: adaptor(properties, chain),
    })
}

fn links(
    alloc: Global,
    properties: &Properties<'_>,
    chains: &[Chain],
) -> Result<Option<ItemList<Link>>, NoMemory>
    ensures { IfOk result (λ found. found ≡ spec.all_of
        (map (spec.link_in (placed properties.now.uses.now.names.tree.now)) chains.now)) }
{
    let mut links = ItemList::new(alloc);
    for chain in chains {
        let Some(link) = link(properties, chain) else {
            return Ok(None);
        };
        links.push(link)?;
    }
    Ok(Some(links))
}

// The feed of a connection chain, if it leads from the root to a thread.
fn feed(alloc: Global, properties: &Properties<'_>, chain: &Chain) -> Result<Option<Feed>, NoMemory>
    ensures { IfOk result (λ found. found ≡ spec.feed_in (placed properties.now.uses.now.names.tree.now) chain.now) }
{
    let ChainEnd::Root { name } = &chain.from else {
        return Ok(None);
    };
    let ChainEnd::Thread {
        node: target,
        port: in_port,
    } = &chain.to
    else {
        return Ok(None);
    };
    Ok(Some(Feed {
        name: name.try_clone(alloc)?,
        target: *target,
        in_port: *in_port,
        adaptor: adaptor(properties, chain),
    }))
}

fn feeds(
    alloc: Global,
    properties: &Properties<'_>,
    chains: &[Chain],
) -> Result<Option<ItemList<Feed>>, NoMemory>
    ensures { IfOk result (λ found. found ≡ spec.all_of
        (map (spec.feed_in (placed properties.now.uses.now.names.tree.now)) chains.now)) }
{
    let mut feeds = ItemList::new(alloc);
    for chain in chains {
        let Some(feed) = feed(alloc, properties, chain)? else {
            return Ok(None);
        };
        feeds.push(feed)?;
    }
    Ok(Some(feeds))
}

// The tap of a connection chain, if it leads from a thread to the root.
fn tap(alloc: Global, chain: &Chain) -> Result<Option<Tap>, NoMemory>
    ensures { IfOk result (λ found. found ≡ spec.tap_in chain.now) }
{
    let ChainEnd::Thread {
        node: source,
        port: out_port,
    } = &chain.from
    else {
        return Ok(None);
    };
    let ChainEnd::Root { name } = &chain.to else {
        return Ok(None);
    };
    Ok(Some(Tap {
        name: name.try_clone(alloc)?,
        source: *source,
        out_port: *out_port,
    }))
}

fn taps(alloc: Global, chains: &[Chain]) -> Result<Option<ItemList<Tap>>, NoMemory>
    ensures { IfOk result (λ found. found ≡ spec.all_of (map spec.tap_in chains.now)) }
{
    let mut taps = ItemList::new(alloc);
    for chain in chains {
        let Some(tap) = tap(alloc, chain)? else {
            return Ok(None);
        };
        taps.push(tap)?;
    }
    Ok(Some(taps))
}

/// Returns the parts of the design of an instance model, from the properties of its package, or `None` if a
/// part is rejected. Errors: out of memory.
pub fn design_parts(
    alloc: Global,
    properties: &Properties<'_>,
    instance: &Instance<'_>,
) -> Result<Option<DesignParts>, NoMemory>
    requires names { properties.now.uses.now.names.tree.now ≡ instance.now.wires.uses.names.tree.now }
    requires rules { All (spec.HasRules (placed instance.now.wires.uses.names.tree.now)) instance.now.threads }
    ensures { IfOk result (λ found. MatchOption found
        (HasNoDesign (placed instance.now.wires.uses.names.tree.now) (shown instance.now))
        (λ design. spec.IsDesignOf (placed instance.now.wires.uses.names.tree.now) (shown instance.now) design)) }
{
    let root = instance.root;
    let uses = properties.uses;
    let Some(period) = root_period(properties, root) else {
        return Ok(None);
    };
    let Some(gamma) = root_gamma(uses, root) else {
        return Ok(None);
    };
    let Some(components) = components(alloc, properties, root, instance.threads.as_slice())? else {
        return Ok(None);
    };
    let Some(links) = links(alloc, properties, instance.links.as_slice())? else {
        return Ok(None);
    };
    let Some(feeds) = feeds(alloc, properties, instance.feeds.as_slice())? else {
        return Ok(None);
    };
    let Some(taps) = taps(alloc, instance.taps.as_slice())? else {
        return Ok(None);
    };
    Ok(Some(DesignParts {
        period,
        gamma,
        components,
        links,
        feeds,
        taps,
        ignored: ignored_names(alloc, uses, root)?,
    }))
}
