//! Checks of the names in types, and of the properties of their ports.
#![tactic(auto, using(aadl_names::proofs::FirstFaultSoFar::found_append))]

ghost use Rattle.std.specs.Prelude.{◌≡◌, OnOk, map, flat_map};
ghost use Rattle.aadl_tree.specs.proof.DeclarationViews.{type_view, feature_view};
ghost use Rattle.aadl_tree.specs.proof.PlaceMaps.{kept_place};
ghost use Rattle.aadl_names.specs.proof.FirstFaultSoFar.{found};
ghost use Rattle.aadl_names.specs.PackageNameFaults as spec;

use crate::annexes::{check_no_behaviour, check_variables};
use crate::check_properties;
use aadl_names::name_comparison::same_word;
use aadl_names::{FaultFinder, PropertyHolder};
use aadl_tree::{Feature, TypeDeclaration};
use std::alloc::AllocError;

// Reports faults in the properties of a port.
fn check_port(finder: &mut FaultFinder, port: &Feature) -> Result<(), AllocError>
    ensures { OnOk result (finder.new ≡ found finder.old (spec.port_faults (feature_view kept_place port.now))) }
{
    check_properties(finder, PropertyHolder::Port, port.properties.as_slice())
}

/// Reports faults in the properties of ports. Errors: out of memory.
pub fn check_ports(finder: &mut FaultFinder, ports: &[Feature]) -> Result<(), AllocError>
    ensures { OnOk result (finder.new ≡ found finder.old
        (flat_map spec.port_faults (map (feature_view kept_place) ports.now))) }
{
    for port in ports {
        check_port(finder, port)?;
    }
    Ok(())
}

/// Reports the faults of the names in a type. Errors: out of memory.
pub fn check_type(
    finder: &mut FaultFinder,
    of_root: bool,
    x: &TypeDeclaration,
) -> Result<(), AllocError>
    ensures { OnOk result (finder.new ≡ found finder.old (spec.type_faults of_root (type_view kept_place x.now))) }
{
    finder.wrong_if(!same_word(&x.end_name, &x.name), x.end_name.at);
    check_ports(finder, x.features.as_slice())?;
    check_properties(
        finder,
        PropertyHolder::Declaration(x.category, of_root),
        x.properties.as_slice(),
    )?;
    check_no_behaviour(finder, x.annexes.as_slice());
    check_variables(finder, x.annexes.as_slice())
}
