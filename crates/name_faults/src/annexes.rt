//! Checks of annexes: the properties of variables, and behaviours in declarations that may not have one.
#![tactic(auto, using(aadl_names::proofs::FirstFaultSoFar::found_append))]

ghost use Rattle.std.specs.Prelude.{◌≡◌, OnOk, map, flat_map};
ghost use Rattle.aadl_tree.specs.proof.AnnexViews.{variable_view, annex_view};
ghost use Rattle.aadl_tree.specs.proof.PlaceMaps.{kept_place};
ghost use Rattle.aadl_names.specs.proof.FirstFaultSoFar.{found};
ghost use Rattle.aadl_names.specs.BehaviourAnnexes.{variables_in};
ghost use Rattle.aadl_names.specs.PackageNameFaults as spec;

use crate::check_properties;
use aadl_names::{FaultFinder, PropertyHolder};
use aadl_tree::{Annex, AnnexContent, VariableDeclaration};
use std::alloc::AllocError;

fn variables_in(annex: &Annex) -> &[VariableDeclaration]
    ensures { map (variable_view kept_place) result.now ≡ variables_in (annex_view kept_place annex.now) }
{
    match &annex.content {
        AnnexContent::Unread(_) => &[],
        AnnexContent::Behaviour(tree) => match &tree.variables {
            Some(variables) => variables.as_slice(),
            None => &[],
        },
    }
}

fn check_variable(finder: &mut FaultFinder, x: &VariableDeclaration) -> Result<(), AllocError>
    ensures { OnOk result (finder.new ≡ found finder.old (spec.variable_faults (variable_view kept_place x.now))) }
{
    check_properties(finder, PropertyHolder::Variable, x.properties.as_slice())
}

fn check_variable_list(
    finder: &mut FaultFinder,
    variables: &[VariableDeclaration],
) -> Result<(), AllocError>
    ensures { OnOk result (finder.new ≡ found finder.old
        (flat_map spec.variable_faults (map (variable_view kept_place) variables.now))) }
{
    for variable in variables {
        check_variable(finder, variable)?;
    }
    Ok(())
}

fn check_annex_variables(finder: &mut FaultFinder, annex: &Annex) -> Result<(), AllocError>
    ensures { OnOk result (finder.new ≡ found finder.old (spec.variables_faults (annex_view kept_place annex.now))) }
{
    check_variable_list(finder, variables_in(annex))
}

/// Reports faults in the properties of variables in annexes. Errors: out of memory.
pub fn check_variables(finder: &mut FaultFinder, annexes: &[Annex]) -> Result<(), AllocError>
    ensures { OnOk result (finder.new ≡ found finder.old
        (flat_map spec.variables_faults (map (annex_view kept_place) annexes.now))) }
{
    for annex in annexes {
        check_annex_variables(finder, annex)?;
    }
    Ok(())
}

fn check_stray(finder: &mut FaultFinder, annex: &Annex)
    ensures { finder.new ≡ found finder.old (spec.stray_faults (annex_view kept_place annex.now)) }
{
    match &annex.content {
        AnnexContent::Unread(_) => {}
        AnnexContent::Behaviour(_) => finder.wrong_if(true, annex.at),
    }
}

/// Reports behaviours in declarations that may not have one.
pub fn check_no_behaviour(finder: &mut FaultFinder, annexes: &[Annex])
    ensures { finder.new ≡ found finder.old (flat_map spec.stray_faults (map (annex_view kept_place) annexes.now)) }
{
    for annex in annexes {
        check_stray(finder, annex);
    }
}
