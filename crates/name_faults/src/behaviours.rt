//! Checks of the behaviours of an implementation.
#![tactic(auto, using(aadl_names::proofs::FirstFaultSoFar::found_append))]

ghost use Rattle.std.specs.Prelude.{◌≡◌, OnOk};
ghost use Rattle.aadl_tree.specs.proof.PackageViews.{placed};
ghost use Rattle.aadl_tree.specs.proof.DeclarationViews.{implementation_view};
ghost use Rattle.aadl_tree.specs.proof.AnnexViews.{annex_tree_view, annex_view};
ghost use Rattle.aadl_tree.specs.proof.PlaceMaps.{kept_place};
ghost use Rattle.aadl_names.specs.proof.FirstFaultSoFar.{found};
ghost use Rattle.aadl_names.specs.proof.NameTables.{value_of};
ghost use Rattle.aadl_names.specs.BehaviourAnnexes.{behaviours};
ghost use Rattle.aadl_names.specs.NameResolution.{ports_of, type_number, type_numbered};
ghost use Rattle.aadl_names.specs.PackageNameFaults as spec;
ghost use Rattle.name_faults.specs.proof.BehaviourScopes.{known_by};
ghost use Rattle.name_faults.specs.proof.TypePortNames.{HasRolesOf};
ghost use Rattle.name_faults.specs.proof.AnnexFaults.{annex_uses, still_expected};

use crate::behaviour_sections::transitions_in;
use crate::thread_category::is_thread;
use crate::{BehaviourScope, check_transitions, state_names, variable_roles};
use aadl_names::declarations_by_number::type_numbered;
use aadl_names::{FaultFinder, NameTable, Role};
use aadl_tree::{Annex, AnnexContent, AnnexTree, Implementation, PackageTree};
use std::alloc::{AllocError, Global};

/// An implementation with its package, the number of its type, and the roles of the names of the type's ports.
#[derive(Clone, Copy)]
pub struct TypedImplementation<'t> {
    pub tree: &'t PackageTree,
    pub of_type: Option<usize>,
    pub roles: &'t NameTable<Role>,
    pub implementation: &'t Implementation,
}

// Whether the type precedes the implementation in the text, so that its declarations come first.
fn comes_first(typed: &TypedImplementation<'_>) -> bool
    ensures { result ≡ spec.comes_first (type_numbered (placed typed.now.tree.now) typed.now.of_type)
        (implementation_view kept_place typed.now.implementation.now) }
{
    match type_numbered(typed.tree, typed.of_type) {
        Some(declaration) => declaration.at < typed.implementation.at,
        None => true,
    }
}

// The scope of a behaviour in which ports take precedence over variables, or variables over ports.
fn scope_of<'t>(
    alloc: Global,
    ports_first: bool,
    ports: &'t NameTable<Role>,
    variables: &'t NameTable<Role>,
) -> BehaviourScope<'t>
    ensures { known_by result ≡ spec.in_order ports_first (value_of ports.now) (value_of variables.now) }
{
    if ports_first {
        BehaviourScope::new(alloc, ports, variables)
    } else {
        BehaviourScope::new(alloc, variables, ports)
    }
}

// Reports wrong uses of names in a behaviour of an implementation.
fn check_behaviour(
    finder: &mut FaultFinder,
    typed: &TypedImplementation<'_>,
    behaviour: &AnnexTree,
) -> Result<(), AllocError>
    requires of_type { typed.now.of_type
        ≡ type_number (placed typed.now.tree.now) (implementation_view kept_place typed.now.implementation.now) }
    requires roles { HasRolesOf
        (ports_of (placed typed.now.tree.now) (implementation_view kept_place typed.now.implementation.now))
        typed.now.roles.now }
    ensures { OnOk result (finder.new ≡ found finder.old
        (spec.behaviour_faults (placed typed.now.tree.now) (implementation_view kept_place typed.now.implementation.now)
        (annex_tree_view kept_place behaviour.now))) }
{
    let alloc = finder.alloc();
    let variables = variable_roles(alloc, behaviour)?;
    let states = state_names(alloc, behaviour)?;
    let scope = scope_of(alloc, comes_first(typed), typed.roles, &variables);
    check_transitions(finder, &states, &scope, transitions_in(behaviour))
}

// Checks an annex, when a behaviour is expected or would be one too many.
fn check_annex(
    finder: &mut FaultFinder,
    typed: &TypedImplementation<'_>,
    expected: bool,
    annex: &Annex,
) -> Result<(), AllocError>
    requires of_type { typed.now.of_type
        ≡ type_number (placed typed.now.tree.now) (implementation_view kept_place typed.now.implementation.now) }
    requires roles { HasRolesOf
        (ports_of (placed typed.now.tree.now) (implementation_view kept_place typed.now.implementation.now))
        typed.now.roles.now }
    ensures { OnOk result (finder.new ≡ found finder.old
        (annex_uses (placed typed.now.tree.now) (implementation_view kept_place typed.now.implementation.now) expected
        (annex_view kept_place annex.now))) }
{
    match &annex.content {
        AnnexContent::Unread(_) => Ok(()),
        AnnexContent::Behaviour(behaviour) => {
            if expected {
                check_behaviour(finder, typed, behaviour)
            } else {
                finder.wrong_if(true, annex.at);
                Ok(())
            }
        }
    }
}

// Whether a behaviour is still expected after an annex.
fn still_expected(expected: bool, annex: &Annex) -> bool
    ensures { result ≡ still_expected expected (annex_view kept_place annex.now) }
{
    match &annex.content {
        AnnexContent::Unread(_) => expected,
        AnnexContent::Behaviour(_) => false,
    }
}

/// Reports wrong uses of names in the first behaviour of a thread's implementation, and every further
/// behaviour. Errors: out of memory.
pub fn check_behaviours(
    finder: &mut FaultFinder,
    typed: &TypedImplementation<'_>,
) -> Result<(), AllocError>
    requires of_type { typed.now.of_type
        ≡ type_number (placed typed.now.tree.now) (implementation_view kept_place typed.now.implementation.now) }
    requires roles { HasRolesOf
        (ports_of (placed typed.now.tree.now) (implementation_view kept_place typed.now.implementation.now))
        typed.now.roles.now }
    ensures { OnOk result (finder.new ≡ found finder.old
        (spec.annex_faults (placed typed.now.tree.now) (implementation_view kept_place typed.now.implementation.now)
        (behaviours (implementation_view kept_place typed.now.implementation.now).annexes))) }
{
    let x = typed.implementation;
    let mut expected = is_thread(x.category);
    for annex in &x.annexes {
        check_annex(finder, typed, expected, annex)?;
        expected = still_expected(expected, annex);
    }
    Ok(())
}
