//! The violations of links, feeds and taps.
ghost use Rattle.std.specs.Prelude.{◌≡◌, ◌<◌, ◌++◌, ℕ, OnOk, Some};
ghost use Rattle.aadl_tree.specs.proof.PlaceMaps.{kept_place};
ghost use Rattle.aadl_tree.specs.proof.DeclarationViews.{connection_view};
ghost use Rattle.component_checks.specs.proof.ChainProperties.{carried_by};
ghost use Rattle.model_violations.specs.ChainFindings as spec;
ghost use Rattle.model_violations.specs.proof.ThreadRates.{tree_of, ArePositive};

use crate::carriers::carrier_of;
use crate::chain_ends::{end_kind, end_name, end_rate};
use aadl_instance::{Chain, ThreadAt};
use aadl_tree::Connection;
use annex_resolve::Violation;
use annex_resolve::violation::{NOT_DELAYED, STRAY_ADAPTOR};
use component_checks::thread_findings::add_named;
use component_checks::{Carrier, ChainProperties, Properties};
use pals_base::{Adaptor, ItemList, NoMemory};
use std::alloc::Global;

/// The threads of an instance model, with their valid rates, and with the properties of their package.
#[derive(Drop)]
pub struct RatedThreads<'t> {
    pub properties: &'t Properties<'t>,
    pub threads: &'t [ThreadAt],
    pub rates: &'t [Option<u32>],
}

// Whether two rates cause no violation, independent of names and types: one of them is missing, or they are
// equal and there is no adaptor.
fn is_plain(adaptor: Option<Option<Adaptor>>, source: Option<u32>, target: Option<u32>) -> bool
    ensures { result ≡ spec.is_plain adaptor source target }
{
    match source {
        None => true,
        Some(source) => match target {
            None => true,
            Some(target) => source == target && adaptor.is_none(),
        },
    }
}

// Appends the violations of an adaptor between two rates. If one rate is missing, there are no violations.
fn add_rated(
    alloc: Global,
    carrier: &Carrier,
    source: Option<u32>,
    target: Option<u32>,
    found: &mut ItemList<Violation>,
) -> Result<(), NoMemory>
    requires source { (k : ℕ) → source ≡ Some k → 0 < k }
    requires target { (k : ℕ) → target ≡ Some k → 0 < k }
    ensures { OnOk result (found.new ≡ found.old
        ++ spec.rated carrier.now.at carrier.now.name carrier.now.adaptor carrier.now.kind source target) }
{
    match source {
        None => Ok(()),
        Some(source) => match target {
            None => Ok(()),
            Some(target) => carrier.add_pair_findings(alloc, found, source, target),
        },
    }
}

// Appends the violations of the adaptor of a link or a feed.
fn add_adaptor_findings(
    alloc: Global,
    rated: &RatedThreads<'_>,
    chain: &Chain,
    connection: &Connection,
    said: ChainProperties,
    found: &mut ItemList<Violation>,
) -> Result<(), NoMemory>
    requires rates { ArePositive rated.now.rates.now }
    requires said { said ≡ carried_by (connection_view kept_place connection.now).properties }
    ensures { OnOk result (found.new ≡ found.old
        ++ spec.adaptor_findings (tree_of rated.now) rated.now.threads.now rated.now.rates.now chain.now
        (connection_view kept_place connection.now)) }
{
    let source = end_rate(rated.rates, &chain.from);
    let target = end_rate(rated.rates, &chain.to);
    if is_plain(said.adaptor, source, target) {
        return Ok(());
    }
    let properties = rated.properties;
    let uses = properties.uses;
    let carrier = Carrier {
        at: connection.name.at,
        name: end_name(alloc, uses, rated.threads, &chain.to)?,
        adaptor: said.adaptor,
        kind: end_kind(uses, rated.threads, &chain.to),
    };
    add_rated(alloc, &carrier, source, target, found)
}

// Appends a violation if a link's carrier is not delayed.
fn add_timing_findings(
    alloc: Global,
    rated: &RatedThreads<'_>,
    chain: &Chain,
    connection: &Connection,
    said: ChainProperties,
    found: &mut ItemList<Violation>,
) -> Result<(), NoMemory>
    requires { said ≡ carried_by (connection_view kept_place connection.now).properties }
    ensures { OnOk result (found.new ≡ found.old
        ++ spec.timing_findings (tree_of rated.now) rated.now.threads.now chain.now
        (connection_view kept_place connection.now)) }
{
    if said.delayed {
        return Ok(());
    }
    let properties = rated.properties;
    let details = end_name(alloc, properties.uses, rated.threads, &chain.to)?;
    found.push(Violation {
        at: connection.name.at,
        number: NOT_DELAYED,
        details,
    })
}

/// Appends the violations of a link: its carrier is not delayed, neither rate divides the other, or an adaptor
/// is missing, superfluous or not allowed. Errors: out of memory.
pub fn add_link_findings(
    alloc: Global,
    rated: &RatedThreads<'_>,
    link: &Chain,
    found: &mut ItemList<Violation>,
) -> Result<(), NoMemory>
    requires { ArePositive rated.now.rates.now }
    ensures { OnOk result (found.new ≡ found.old
        ++ spec.link_findings (tree_of rated.now) rated.now.threads.now rated.now.rates.now link.now) }
{
    let Some((connection, said)) = carrier_of(rated.properties, link.carrier) else {
        return Ok(());
    };
    add_timing_findings(alloc, rated, link, connection, said, found)?;
    add_adaptor_findings(alloc, rated, link, connection, said, found)
}

/// Appends the violations of a feed, for the adaptor between the root's rate, which is 1, and the thread's
/// rate. Errors: out of memory.
pub fn add_feed_findings(
    alloc: Global,
    rated: &RatedThreads<'_>,
    feed: &Chain,
    found: &mut ItemList<Violation>,
) -> Result<(), NoMemory>
    requires { ArePositive rated.now.rates.now }
    ensures { OnOk result (found.new ≡ found.old
        ++ spec.feed_findings (tree_of rated.now) rated.now.threads.now rated.now.rates.now feed.now) }
{
    match carrier_of(rated.properties, feed.carrier) {
        Some((connection, said)) => {
            add_adaptor_findings(alloc, rated, feed, connection, said, found)
        }
        None => Ok(()),
    }
}

/// Appends a violation if a tap has an adaptor. Errors: out of memory.
#[tactic(auto, using(crate::proofs::MappedOptions::has_mapped))]
pub fn add_tap_findings(
    alloc: Global,
    rated: &RatedThreads<'_>,
    tap: &Chain,
    found: &mut ItemList<Violation>,
) -> Result<(), NoMemory>
    ensures { OnOk result (found.new ≡ found.old
        ++ spec.tap_findings (tree_of rated.now) rated.now.threads.now tap.now) }
{
    let properties = rated.properties;
    let Some((connection, said)) = carrier_of(properties, tap.carrier) else {
        return Ok(());
    };
    let name = end_name(alloc, properties.uses, rated.threads, &tap.to)?;
    add_named(
        alloc,
        found,
        said.adaptor.is_some(),
        connection.name.at,
        STRAY_ADAPTOR,
        name.as_str(),
    )
}
