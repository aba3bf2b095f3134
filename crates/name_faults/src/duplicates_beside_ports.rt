//! Duplicates among the ports of a type and the declarations of an implementation in the same namespace.
#![tactic(auto, using(aadl_names::proofs::FirstFaultSoFar::found_append))]

ghost use Rattle.std.specs.Prelude.{◌≡◌, Some, OnOk, map, slice_get};
ghost use Rattle.aadl_tree.specs.proof.DeclarationViews.{feature_view};
ghost use Rattle.aadl_tree.specs.proof.PlaceMaps.{kept_place};
ghost use Rattle.aadl_names.specs.proof.FirstFaultSoFar.{found};
ghost use Rattle.aadl_names.specs.DuplicatesByNamespace.{port_entries};
ghost use Rattle.aadl_names.specs.proof.DuplicatesBesidePorts as spec;
ghost use Rattle.name_faults.specs.proof.TypePortNames.{AreNamesOf};

use crate::port_name_tables::PortNames;
use aadl_names::earliest_by_name::{earliest_of, is_before};
use aadl_names::{FaultFinder, NumberedPlace, SpelledName};
use aadl_tree::Feature;
use std::alloc::AllocError;

// Reports a port as a duplicate.
fn check_port(finder: &mut FaultFinder, ports: &[Feature], number: usize) -> Result<(), AllocError>
    ensures { OnOk result (finder.new ≡ found finder.old
        (spec.entry_again (slice_get (port_entries (map (feature_view kept_place) ports.now)) number))) }
{
    match ports.get(number) {
        Some(port) => finder.twice(port.name.spelling.as_str(), port.name.at),
        None => Ok(()),
    }
}

// Reports the earliest port with the name if it is after the entry.
fn check_earliest(
    finder: &mut FaultFinder,
    ports: &[Feature],
    port: NumberedPlace,
    entry: &SpelledName,
) -> Result<(), AllocError>
    ensures { OnOk result (finder.new ≡ found finder.old
        (spec.port_again (port_entries (map (feature_view kept_place) ports.now)) (Some port) entry.now)) }
{
    if entry.at < port.at {
        check_port(finder, ports, port.number)
    } else {
        Ok(())
    }
}

// Reports the entry if it is after one with the same name.
fn check_behind(
    finder: &mut FaultFinder,
    port: Option<NumberedPlace>,
    other: Option<NumberedPlace>,
    entry: &SpelledName,
) -> Result<(), AllocError>
    ensures { OnOk result (finder.new ≡ found finder.old (spec.again_beside port other entry.now)) }
{
    if is_before(port, entry.at) || is_before(other, entry.at) {
        finder.twice(entry.name.as_str(), entry.at)
    } else {
        Ok(())
    }
}

// Reports the entry if it is after one with the same name, or the earliest port with the name if it is after
// the entry.
fn check_one(
    finder: &mut FaultFinder,
    ports: &[Feature],
    port: Option<NumberedPlace>,
    other: Option<NumberedPlace>,
    entry: &SpelledName,
) -> Result<(), AllocError>
    ensures { OnOk result (finder.new ≡ found finder.old
        (spec.beside_one (port_entries (map (feature_view kept_place) ports.now)) port other entry.now)) }
{
    check_behind(finder, port, other, entry)?;
    match port {
        Some(spot) => check_earliest(finder, ports, spot, entry),
        None => Ok(()),
    }
}

/// Reports the duplicates among ports and the other declarations in their namespace. Errors: out of memory.
#[tactic(auto, unfolding(aadl_names::specs::proof::DuplicatesBesidePorts::beside))]
pub fn check_port_duplicates(
    finder: &mut FaultFinder,
    ports: &[Feature],
    names: &PortNames,
    others: &[SpelledName],
) -> Result<(), AllocError>
    requires { AreNamesOf (map (feature_view kept_place) ports.now) names.now }
    ensures { OnOk result (finder.new ≡ found finder.old
        (spec.beside (port_entries (map (feature_view kept_place) ports.now)) others.now)) }
{
    let alloc = finder.alloc();
    finder.add(&names.again)?;
    let own = earliest_of(alloc, others)?;
    for entry in others {
        let name = entry.name.as_str();
        let port = names.earliest.value(alloc, name)?;
        let other = own.value(alloc, name)?;
        check_one(finder, ports, port, other, entry)?;
    }
    Ok(())
}
