//! Checks of the root.
ghost use Rattle.std.specs.Prelude.{◌≡◌, ◌≤◌, ◌++◌, OnOk, not, option_map, option_copied};
ghost use Rattle.std.specs.Option.{is_some};
ghost use Rattle.pals_base.specs.declared.limits.TheConstants.{RATE};
ghost use Rattle.aadl_tree.specs.proof.PlaceMaps.{kept_place};
ghost use Rattle.aadl_tree.specs.proof.PackageViews.{placed};
ghost use Rattle.aadl_tree.specs.proof.ValueViews.{association_view};
ghost use Rattle.component_checks.specs.RootFindings as spec;

use crate::package_properties::Properties;
use crate::property_lookup::root_property;
use crate::thread_findings::add_named;
use crate::thread_rates::root_period;
use crate::times::{range_within, shown, time_within};
use crate::{add_bound_findings, gamma_by};
use aadl_names::PropertyName;
use aadl_names::declarations_by_number::implementation_at;
use aadl_tree::{Association, PackageTree};
use aadl_uses::Uses;
use annex_resolve::Violation;
use annex_resolve::violation::{GAMMA_MISSING, GAMMA_ORDER, NO_PERIOD};
use pals_base::{Gamma, ItemList, Nanos, NoMemory};
use std::alloc::Global;

#[tactic(auto, using(crate::proofs::TimesWithinAnHour::skew_twice))]
fn root_skew(uses: &Uses<'_>, root: usize) -> Option<Nanos>
    ensures { result ≡ spec.root_skew (placed uses.now.names.tree.now) root }
{
    match root_property(uses, root, PropertyName::Skew) {
        Some(found) => crate::skew_of(time_within(&found.value)),
        None => None,
    }
}

#[tactic(auto, using(crate::proofs::TimesWithinAnHour::range_twice))]
fn root_range(uses: &Uses<'_>, root: usize, property: PropertyName) -> Option<(Nanos, Nanos)>
    ensures { result ≡ spec.root_range (placed uses.now.names.tree.now) root property }
{
    match root_property(uses, root, property) {
        Some(found) => crate::range_of(range_within(&found.value)),
        None => None,
    }
}

/// Returns the timing bounds of the root, if none of the three is missing or rejected.
pub fn root_gamma(uses: &Uses<'_>, root: usize) -> Option<Gamma>
    ensures { result ≡ spec.root_gamma (placed uses.now.names.tree.now) root }
{
    let skew = root_skew(uses, root);
    let execution = root_range(uses, root, PropertyName::Execution);
    let network = root_range(uses, root, PropertyName::Network);
    gamma_by(skew, execution, network)
}

// The byte offset of the root's name.
fn root_place(tree: &PackageTree, root: usize) -> usize
    ensures { result ≡ spec.root_place (placed tree.now) root }
{
    match implementation_at(tree, root) {
        Some(x) => x.name.component_type.at,
        None => 0,
    }
}

fn lacks(uses: &Uses<'_>, root: usize, property: PropertyName) -> bool
    ensures { result ≡ not (is_some (spec.at_root (placed uses.now.names.tree.now) root property)) }
{
    root_property(uses, root, property).is_none()
}

// Appends a violation if the root lacks one of the timing bounds.
fn add_missing_bound(
    alloc: Global,
    uses: &Uses<'_>,
    root: usize,
    property: PropertyName,
    found: &mut ItemList<Violation>,
) -> Result<(), NoMemory>
    ensures { OnOk result (found.new ≡ found.old ++ spec.missing_bound (placed uses.now.names.tree.now) root property) }
{
    let at = root_place(uses.names.tree, root);
    let missing = lacks(uses, root, property);
    add_named(alloc, found, missing, at, GAMMA_MISSING, shown(property))
}

// Appends violations if the root lacks its period or timing bounds.
fn add_missing_findings(
    alloc: Global,
    uses: &Uses<'_>,
    root: usize,
    found: &mut ItemList<Violation>,
) -> Result<(), NoMemory>
    ensures { OnOk result (found.new ≡ found.old ++ spec.missing_findings (placed uses.now.names.tree.now) root) }
{
    let at = root_place(uses.names.tree, root);
    let missing = lacks(uses, root, PropertyName::Period);
    add_named(alloc, found, missing, at, NO_PERIOD, "")?;
    add_missing_bound(alloc, uses, root, PropertyName::Skew, found)?;
    add_missing_bound(alloc, uses, root, PropertyName::Execution, found)?;
    add_missing_bound(alloc, uses, root, PropertyName::Network, found)
}

// Appends a violation if a skew is 0.
fn add_zero_skew(
    alloc: Global,
    given: Option<&Association>,
    found: &mut ItemList<Violation>,
) -> Result<(), NoMemory>
    ensures { OnOk result (found.new ≡ found.old
        ++ spec.zero_skew (option_map (association_view kept_place) (option_copied given.entry))) }
{
    let Some(given) = given else {
        return Ok(());
    };
    let zero = time_within(&given.value) == Some(0);
    add_named(
        alloc,
        found,
        zero,
        given.name.first.at,
        GAMMA_ORDER,
        shown(PropertyName::Skew),
    )
}

// Whether the lower end of a range is above the upper end.
fn is_reversed(range: Option<(Nanos, Nanos)>) -> bool
    ensures { result ≡ spec.is_reversed range }
{
    match range {
        Some((low, high)) => high < low,
        None => false,
    }
}

// Appends a violation if the lower end of a range is above the upper end.
fn add_reversed_range(
    alloc: Global,
    property: PropertyName,
    given: Option<&Association>,
    found: &mut ItemList<Violation>,
) -> Result<(), NoMemory>
    ensures { OnOk result (found.new ≡ found.old
        ++ spec.reversed_range property (option_map (association_view kept_place) (option_copied given.entry))) }
{
    let Some(given) = given else {
        return Ok(());
    };
    add_named(
        alloc,
        found,
        is_reversed(range_within(&given.value)),
        given.name.first.at,
        GAMMA_ORDER,
        shown(property),
    )
}

// Appends violations if the skew is 0 or a range is reversed.
fn add_order_findings(
    alloc: Global,
    uses: &Uses<'_>,
    root: usize,
    found: &mut ItemList<Violation>,
) -> Result<(), NoMemory>
    ensures { OnOk result (found.new ≡ found.old ++ spec.order_findings (placed uses.now.names.tree.now) root) }
{
    let skew = root_property(uses, root, PropertyName::Skew);
    add_zero_skew(alloc, skew, found)?;
    let execution = root_property(uses, root, PropertyName::Execution);
    add_reversed_range(alloc, PropertyName::Execution, execution, found)?;
    let network = root_property(uses, root, PropertyName::Network);
    add_reversed_range(alloc, PropertyName::Network, network, found)
}

// The byte offset of a property, or 0 if it is missing.
fn place_of(given: Option<&Association>) -> usize
    ensures { result ≡ spec.place_of (option_map (association_view kept_place) (option_copied given.entry)) }
{
    match given {
        Some(given) => given.name.first.at,
        None => 0,
    }
}

/// Appends the violations of the root: its period or a timing bound is missing, the skew is 0, a range is
/// reversed, or the period is below the bound. `rate` is the maximum rate of its components. Errors: out of
/// memory.
pub fn add_root_findings(
    alloc: Global,
    properties: &Properties<'_>,
    root: usize,
    rate: u32,
    found: &mut ItemList<Violation>,
) -> Result<(), NoMemory>
    requires { rate ≤ RATE }
    ensures { OnOk result (found.new ≡ found.old
        ++ spec.root_findings (placed properties.now.uses.now.names.tree.now) root rate) }
{
    let uses = properties.uses;
    add_missing_findings(alloc, uses, root, found)?;
    add_order_findings(alloc, uses, root, found)?;
    let at = place_of(root_property(uses, root, PropertyName::Period));
    let period = root_period(properties, root);
    let gamma = root_gamma(uses, root);
    add_bound_findings(alloc, found, at, period, gamma, rate)
}
