//! The behaviour of a thread's implementation.
ghost use Rattle.std.specs.Prelude.{◌≡◌, ◌++◌, ◌≤◌, ℕ, IfOk, OnOk, length, map, option_map, slice_get, Some};
ghost use Rattle.std.specs.Option.{option_and_then};
ghost use Rattle.pals_base.specs.declared.limits.TheConstants.{PORTS, VARIABLES};
ghost use Rattle.aadl_tree.specs.proof.PlaceMaps.{kept_place};
ghost use Rattle.aadl_tree.specs.proof.PackageViews.{placed};
ghost use Rattle.aadl_tree.specs.Declarations as trees;
ghost use Rattle.aadl_tree.specs.proof.DeclarationViews.{implementation_view};
ghost use Rattle.aadl_tree.specs.proof.AnnexViews.{annex_view, annex_tree_view};
ghost use Rattle.aadl_names.specs.BehaviourAnnexes.{behaviour_in, behaviours};
ghost use Rattle.aadl_names.specs.NameResolution.{implementation_at, ports_of};
ghost use Rattle.model_violations.specs.ThreadBehaviours as spec;
ghost use Rattle.model_violations.specs.PortsAndVariables.{variables_of, values_of, scope_of};

use crate::declared_ports::{ins_in, outs_in};
use crate::declared_variables::variables_of;
use crate::ports_variables_and_scope::values_and_scope_by;
use aadl_tree::{Annex, AnnexContent, AnnexTree, Implementation};
use aadl_uses::Uses;
use annex_resolve::violation::NO_INITIAL;
use annex_resolve::{DeclaredValues, Scope, Violation, resolve_annex};
use component_checks::type_findings::add_variables_findings;
use pals_base::{BehaviourParts, ItemList, NoMemory};
use std::alloc::Global;

// The behaviour of an annex, with the annex's position.
fn behaviour_in(annex: &Annex) -> Option<(usize, &AnnexTree)>
    ensures { option_map (λ b. (b.0, annex_tree_view kept_place b.1.now)) result
        ≡ behaviour_in (annex_view kept_place annex.now) }
{
    match &annex.content {
        AnnexContent::Behaviour(tree) => Some((annex.at, tree)),
        AnnexContent::Unread(_) => None,
    }
}

// The first behaviour among annexes.
fn first_behaviour(annexes: &[Annex]) -> Option<(usize, &AnnexTree)>
    ensures { option_map (λ b. (b.0, annex_tree_view kept_place b.1.now)) result
        ≡ slice_get (behaviours (map (annex_view kept_place) annexes.now)) 0 }
{
    for annex in annexes {
        match behaviour_in(annex) {
            Some(found) => return Some(found),
            None => {}
        }
    }
    None
}

// The ports and variables of the behaviour of the implementation with a number, and the meanings of their
// names.
fn values_and_scope_of(
    alloc: Global,
    uses: &Uses<'_>,
    number: usize,
    x: &Implementation,
    annex: &AnnexTree,
) -> Result<(DeclaredValues, Scope), NoMemory>
    requires number { implementation_at (placed uses.now.names.tree.now) number
        ≡ Some (implementation_view kept_place x.now) }
    requires ports { length (ports_of (placed uses.now.names.tree.now) (implementation_view kept_place x.now)) ≤ PORTS }
    requires variables { length (variables_of (annex_tree_view kept_place annex.now)) ≤ VARIABLES }
    ensures values { IfOk result (λ setting. setting.0
        ≡ values_of (placed uses.now.names.tree.now) (implementation_view kept_place x.now)
        (annex_tree_view kept_place annex.now)) }
    ensures scope { IfOk result (λ setting. setting.1
        ≡ scope_of (placed uses.now.names.tree.now) (implementation_view kept_place x.now)
        (annex_tree_view kept_place annex.now)) }
{
    let ports = uses.ports(number);
    let ins = ins_in(alloc, ports)?;
    let outs = outs_in(alloc, ports)?;
    let variables = variables_of(alloc, annex)?;
    let setting = values_and_scope_by(
        alloc,
        ins.as_slice(),
        outs.as_slice(),
        variables.as_slice(),
    )?;
    Ok(setting)
}

// Resolves the behaviour of the implementation with a number, if it has one, and appends its violations.
fn resolve_numbered(
    alloc: Global,
    uses: &Uses<'_>,
    number: usize,
    x: &Implementation,
    found: &mut ItemList<Violation>,
) -> Result<Option<BehaviourParts>, NoMemory>
    requires number { implementation_at (placed uses.now.names.tree.now) number
        ≡ Some (implementation_view kept_place x.now) }
    requires small { spec.IsSmall (placed uses.now.names.tree.now) (implementation_view kept_place x.now) }
    ensures parts { IfOk result (λ parts. parts
        ≡ spec.behaviour_in (placed uses.now.names.tree.now) (implementation_view kept_place x.now)) }
    ensures found { OnOk result (found.new ≡ found.old
        ++ spec.implementation_findings (placed uses.now.names.tree.now) (implementation_view kept_place x.now)) }
{
    let Some((at, annex)) = first_behaviour(x.annexes.as_slice()) else {
        let at = x.name.component_type.at;
        found.push(Violation::bare(alloc, at, NO_INITIAL))?;
        return Ok(None);
    };
    add_variables_findings(alloc, annex, found)?;
    let (values, scope) = values_and_scope_of(alloc, uses, number, x, annex)?;
    let parts = resolve_annex(alloc, values, &scope, at, annex, found)?;
    Ok(Some(parts))
}

/// Resolves the behaviour of a thread's implementation, by its number, and appends its violations. Without an
/// annex there is no behaviour; this is a violation. Errors: out of memory.
pub fn resolve_implementation(
    alloc: Global,
    uses: &Uses<'_>,
    number: usize,
    found: &mut ItemList<Violation>,
) -> Result<Option<BehaviourParts>, NoMemory>
    requires { (x : trees.Implementation ℕ) → implementation_at (placed uses.now.names.tree.now) number ≡ Some x
        → spec.IsSmall (placed uses.now.names.tree.now) x }
    ensures parts { IfOk result (λ parts. parts
        ≡ option_and_then (spec.behaviour_in (placed uses.now.names.tree.now))
        (implementation_at (placed uses.now.names.tree.now) number)) }
    ensures found { OnOk result ((x : trees.Implementation ℕ)
        → implementation_at (placed uses.now.names.tree.now) number ≡ Some x
        → found.new ≡ found.old ++ spec.implementation_findings (placed uses.now.names.tree.now) x) }
{
    let Some(x) = uses.implementation(number) else {
        return Ok(None);
    };
    let parts = resolve_numbered(alloc, uses, number, x, found)?;
    Ok(parts)
}
