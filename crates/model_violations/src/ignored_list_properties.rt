//! The names of properties of a list without meaning at their position.
ghost use Rattle.std.specs.Prelude.{◌≡◌, ◌++◌, OnOk};
ghost use Rattle.aadl_tree.specs.Names.{same_name};
ghost use Rattle.std.specs.List.{list_any};
ghost use Rattle.aadl_tree.specs.proof.PlaceMaps.{kept_place};
ghost use Rattle.aadl_tree.specs.proof.NameViews.{name_view};
ghost use Rattle.aadl_tree.specs.proof.ValueViews.{association_view, associations_view};
ghost use Rattle.aadl_names.specs.RecognisedProperties.{name_of, recognised};
ghost use Rattle.aadl_names.specs.QualifiedNameSpellings.{spelled_name};
ghost use Rattle.model_violations.specs.IgnoredProperties as spec;

use aadl_names::PropertyHolder;
use aadl_names::name_comparison::is_spelled;
use aadl_names::qualified_names::spelled_name;
use aadl_tree::{Association, Name};
use pals_base::{ItemList, NoMemory, Text};
use std::alloc::Global;

// Whether a property of this name is recognised at a kind of holder.
fn is_recognised(holder: PropertyHolder, name: &Name) -> bool
    ensures { result ≡ list_any (λ p. same_name (spelled_name (name_view kept_place name.now)) (name_of p))
        (recognised holder) }
{
    holder
        .recognised()
        .iter()
        .any(|property| is_spelled(name, property.name()))
}

// Whether an association has no meaning at a kind of holder.
#[tactic(auto, using(aadl_tree::proofs::ValueViews::view_out_association))]
fn is_ignored(holder: PropertyHolder, association: &Association) -> bool
    ensures { result ≡ spec.is_ignored holder (association_view kept_place association.now) }
{
    !(association.applies_to.is_empty() && is_recognised(holder, &association.name))
}

// Appends the name of an association without meaning at a kind of holder.
#[tactic(auto, using(aadl_tree::proofs::ValueViews::view_out_association))]
fn add_association(
    alloc: Global,
    holder: PropertyHolder,
    association: &Association,
    found: &mut ItemList<Text>,
) -> Result<(), NoMemory>
    ensures { OnOk result (found.new ≡ found.old
        ++ spec.association_ignored holder (association_view kept_place association.now)) }
{
    if is_ignored(holder, association) {
        found.push(spelled_name(alloc, &association.name)?)?;
    }
    Ok(())
}

/// Appends the names in a list of properties without meaning at a kind of holder. Errors: out of memory.
pub fn add_list(
    alloc: Global,
    holder: PropertyHolder,
    list: &[Association],
    found: &mut ItemList<Text>,
) -> Result<(), NoMemory>
    ensures { OnOk result (found.new ≡ found.old ++ spec.ignored_in holder (associations_view kept_place list.now)) }
{
    for association in list {
        add_association(alloc, holder, association, found)?;
    }
    Ok(())
}
