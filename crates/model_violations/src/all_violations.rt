//! The list of all violations of an instance model.
ghost use Rattle.std.specs.Prelude.{◌≡◌, ◌++◌, ◌||◌, ℕ, IfOk, OnOk, map, flat_map};
ghost use Rattle.aadl_tree.specs.proof.PackageViews.{placed};
ghost use Rattle.component_checks.specs.ThreadRatesAndFindings as threads_spec;
ghost use Rattle.model_violations.specs.ConnectionsAndCarriers.{carries};
ghost use Rattle.model_violations.specs.ChainFindings.{link_findings, feed_findings, tap_findings};
ghost use Rattle.model_violations.specs.Violations as spec;
ghost use Rattle.model_violations.specs.proof.ThreadRates.{tree_of, ArePositive};
ghost use Rattle.model_violations.specs.proof.UnsortedFindings as inner;

use crate::carriers::Carriers;
use crate::chain_findings::{RatedThreads, add_feed_findings, add_link_findings, add_tap_findings};
use crate::declaration_findings::{UsedPackage, add_package_findings};
use crate::sorted_findings::in_order;
use crate::used_declarations::{types_used, used_below};
use aadl_instance::{Chain, Instance, ThreadAt};
use annex_resolve::Violation;
use component_checks::Properties;
use component_checks::root_findings::add_root_findings;
use component_checks::thread_findings::add_thread_findings;
use component_checks::thread_rates::{greatest_rate, thread_rate};
use pals_base::{ItemList, NoMemory};
use std::alloc::Global;

// The rates of threads; `None` for a thread without a valid rate.
fn rates_of(
    alloc: Global,
    properties: &Properties<'_>,
    root: usize,
    threads: &[ThreadAt],
) -> Result<ItemList<Option<u32>>, NoMemory>
    ensures { IfOk result (λ rates. rates ≡ map
        (threads_spec.thread_rate (placed properties.now.uses.now.names.tree.now) root) threads.now) }
{
    let mut rates = ItemList::new(alloc);
    for thread in threads {
        rates.push(thread_rate(properties, root, thread))?;
    }
    Ok(rates)
}

// Appends the violations of threads.
fn add_threads_findings(
    alloc: Global,
    properties: &Properties<'_>,
    root: usize,
    threads: &[ThreadAt],
    found: &mut ItemList<Violation>,
) -> Result<(), NoMemory>
    ensures { OnOk result (found.new ≡ found.old
        ++ flat_map (threads_spec.thread_findings (placed properties.now.uses.now.names.tree.now) root) threads.now) }
{
    for thread in threads {
        add_thread_findings(alloc, properties, root, thread, found)?;
    }
    Ok(())
}

// Adds the connections whose properties apply to these connection chains.
fn add_carriers(carriers: &mut Carriers, chains: &[Chain]) -> Result<(), NoMemory>
    ensures { OnOk result ((n i : ℕ) → carries carriers.new n i
        ≡ (carries carriers.old n i || carries (map spec.carrier_numbers chains.now) n i)) }
{
    for chain in chains {
        carriers.add(chain.carrier)?;
    }
    Ok(())
}

// The connections whose properties apply to links, feeds and taps.
fn carriers_of(alloc: Global, instance: &Instance<'_>) -> Result<Carriers, NoMemory>
    ensures { IfOk result (λ carriers. (n i : ℕ)
        → carries carriers n i ≡ carries (spec.carriers_of (inner.shown instance.now)) n i) }
{
    let mut carriers = Carriers::new(alloc);
    add_carriers(&mut carriers, instance.links.as_slice())?;
    add_carriers(&mut carriers, instance.feeds.as_slice())?;
    add_carriers(&mut carriers, instance.taps.as_slice())?;
    Ok(carriers)
}

// Appends the violations of links.
fn add_all_link_findings(
    alloc: Global,
    rated: &RatedThreads<'_>,
    links: &[Chain],
    found: &mut ItemList<Violation>,
) -> Result<(), NoMemory>
    requires { ArePositive rated.now.rates.now }
    ensures { OnOk result (found.new ≡ found.old
        ++ flat_map (link_findings (tree_of rated.now) rated.now.threads.now rated.now.rates.now) links.now) }
{
    for link in links {
        add_link_findings(alloc, rated, link, found)?;
    }
    Ok(())
}

// Appends the violations of feeds.
fn add_feeds_findings(
    alloc: Global,
    rated: &RatedThreads<'_>,
    feeds: &[Chain],
    found: &mut ItemList<Violation>,
) -> Result<(), NoMemory>
    requires { ArePositive rated.now.rates.now }
    ensures { OnOk result (found.new ≡ found.old
        ++ flat_map (feed_findings (tree_of rated.now) rated.now.threads.now rated.now.rates.now) feeds.now) }
{
    for feed in feeds {
        add_feed_findings(alloc, rated, feed, found)?;
    }
    Ok(())
}

// Appends the violations of taps.
fn add_taps_findings(
    alloc: Global,
    rated: &RatedThreads<'_>,
    taps: &[Chain],
    found: &mut ItemList<Violation>,
) -> Result<(), NoMemory>
    ensures { OnOk result (found.new ≡ found.old
        ++ flat_map (tap_findings (tree_of rated.now) rated.now.threads.now) taps.now) }
{
    for tap in taps {
        add_tap_findings(alloc, rated, tap, found)?;
    }
    Ok(())
}

// Appends the violations of links, feeds and taps, for the rates of the threads.
fn add_chain_findings(
    alloc: Global,
    properties: &Properties<'_>,
    instance: &Instance<'_>,
    rates: &[Option<u32>],
    found: &mut ItemList<Violation>,
) -> Result<(), NoMemory>
    requires { ArePositive rates.now }
    ensures { OnOk result (found.new ≡ found.old
        ++ spec.chain_findings (placed properties.now.uses.now.names.tree.now) (inner.shown instance.now) rates.now) }
{
    let rated = RatedThreads {
        properties,
        threads: instance.threads.as_slice(),
        rates,
    };
    add_all_link_findings(alloc, &rated, instance.links.as_slice(), found)?;
    add_feeds_findings(alloc, &rated, instance.feeds.as_slice(), found)?;
    add_taps_findings(alloc, &rated, instance.taps.as_slice(), found)
}

// Appends the violations of the declarations in use.
fn add_used_findings(
    alloc: Global,
    instance: &Instance<'_>,
    found: &mut ItemList<Violation>,
) -> Result<(), NoMemory>
    ensures { OnOk result (inner.AddUsed (placed instance.now.wires.uses.names.tree.now) (inner.shown instance.now)
        found.old found.new) }
{
    let wires = &instance.wires;
    let root = instance.root;
    let used = used_below(alloc, &wires.uses, root)?;
    let types = types_used(alloc, &wires.uses, &used)?;
    let carriers = carriers_of(alloc, instance)?;
    let in_use = UsedPackage {
        wires,
        root,
        implementations: &used,
        types: &types,
        carriers: &carriers,
    };
    add_package_findings(alloc, &in_use, found)?;
    Ok(())
}

// All violations, each rule in the order of components, links or connections.
fn findings_of(
    alloc: Global,
    properties: &Properties<'_>,
    instance: &Instance<'_>,
) -> Result<ItemList<Violation>, NoMemory>
    requires { properties.now.uses.now.names.tree.now ≡ instance.now.wires.uses.names.tree.now }
    ensures { IfOk result (λ list. inner.AreFindings (placed instance.now.wires.uses.names.tree.now)
        (inner.shown instance.now) list) }
{
    let mut found = ItemList::new(alloc);
    let root = instance.root;
    let threads = instance.threads.as_slice();
    let rates = rates_of(alloc, properties, root, threads)?;
    let greatest = greatest_rate(rates.as_slice());
    add_root_findings(alloc, properties, root, greatest, &mut found)?;
    add_threads_findings(alloc, properties, root, threads, &mut found)?;
    add_chain_findings(alloc, properties, instance, rates.as_slice(), &mut found)?;
    add_used_findings(alloc, instance, &mut found)?;
    Ok(found)
}

/// Returns all violations of an instance model, sorted by position and then by rule, from the properties of its
/// package. Errors: out of memory.
pub fn violations(
    alloc: Global,
    properties: &Properties<'_>,
    instance: &Instance<'_>,
) -> Result<ItemList<Violation>, NoMemory>
    requires { properties.now.uses.now.names.tree.now ≡ instance.now.wires.uses.names.tree.now }
    ensures { IfOk result (λ list. spec.AreViolations (placed instance.now.wires.uses.names.tree.now)
        (inner.shown instance.now) list) }
{
    let found = findings_of(alloc, properties, instance)?;
    let list = in_order(found)?;
    Ok(list)
}
