//! Checks of a list of properties: values of a wrong shape, and properties that are given twice.
#![tactic(auto, using(aadl_names::proofs::FirstFaultSoFar::found_append))]

ghost use Rattle.std.specs.Prelude.{◌≡◌, ◌&&◌, ◌++◌, not, OnOk, IfOk, flat_map};
ghost use Rattle.aadl_tree.specs.Names.{same_name};
ghost use Rattle.std.specs.List.{list_any};
ghost use Rattle.aadl_tree.specs.Values.{associate, no_associations};
ghost use Rattle.aadl_tree.specs.proof.NameViews.{name_view};
ghost use Rattle.aadl_tree.specs.proof.ValueViews.{value_view, association_view, associations_view};
ghost use Rattle.aadl_tree.specs.proof.PlaceMaps.{kept_place};
ghost use Rattle.aadl_names.specs.proof.FirstFaultSoFar.{found};
ghost use Rattle.aadl_names.specs.RecognisedProperties as spec;
ghost use Rattle.aadl_names.specs.RecognisedProperties.{property_entries};
ghost use Rattle.aadl_names.specs.QualifiedNameSpellings as spelling;
ghost use Rattle.aadl_names.specs.DuplicateNames.{twice};

use crate::property_value_shapes::has_shape;
use aadl_names::duplicate_names::check_twice;
use aadl_names::name_comparison::is_spelled;
use aadl_names::qualified_names::spelled_name;
use aadl_names::{FaultFinder, PropertyHolder, SpelledName};
use aadl_tree::{Association, Name, Spelling, Value};
use pals_base::ItemList;
use std::alloc::{AllocError, Global};

// Whether a property of the name is recognised here, and its value has the wrong shape.
fn is_misshapen(holder: PropertyHolder, name: &Name, value: &Value) -> bool
    ensures { result ≡ list_any (λ p. same_name (spelling.spelled_name (name_view kept_place name.now)) (spec.name_of p)
        && not (spec.has_shape p (value_view kept_place value.now))) (spec.recognised holder) }
{
    holder.recognised().iter().any(|property| is_spelled(name, property.name())
        && !has_shape(*property, value))
}

// Reports the value of one property if its shape is wrong. Ignores a property that applies elsewhere.
fn check_property(finder: &mut FaultFinder, holder: PropertyHolder, association: &Association)
    ensures { finder.new ≡ found finder.old (spec.shape_fault holder (association_view kept_place association.now)) }
{
    if association.applies_to.is_empty() {
        finder.wrong_if(
            is_misshapen(holder, &association.name, &association.value),
            association.name.first.at,
        );
    }
}

// Reports the values of wrong shapes in one list of properties.
fn check_shapes(finder: &mut FaultFinder, holder: PropertyHolder, list: &[Association])
    ensures { finder.new ≡ found finder.old (flat_map (spec.shape_fault holder)
        (spec.listed (associations_view kept_place list.now))) }
{
    for association in list {
        check_property(finder, holder, association);
    }
}

// The entry of a property: its name and position.
fn association_entry(alloc: Global, association: &Association) -> Result<SpelledName, AllocError>
    ensures { IfOk result (λ entry. entry ≡ spec.association_entry (association_view kept_place association.now)) }
{
    let spelled = spelled_name(alloc, &association.name)?;
    Ok(SpelledName {
        name: Spelling::from_str(alloc, spelled.as_str())?,
        at: association.name.first.at,
    })
}

// Adds a property, unless it applies elsewhere.
fn add_property(
    alloc: Global,
    entries: &mut ItemList<SpelledName>,
    association: &Association,
) -> Result<(), AllocError>
    ensures { OnOk result (entries.new ≡ entries.old
        ++ property_entries (associate (association_view kept_place association.now) no_associations)) }
{
    if association.applies_to.is_empty() {
        entries.push(association_entry(alloc, association)?)?;
    }
    Ok(())
}

// The entries of a list of properties, without the ones that apply elsewhere.
fn property_entries(
    alloc: Global,
    list: &[Association],
) -> Result<ItemList<SpelledName>, AllocError>
    ensures { IfOk result (λ entries. entries ≡ property_entries (associations_view kept_place list.now)) }
{
    let mut entries = ItemList::new(alloc);
    for association in list {
        add_property(alloc, &mut entries, association)?;
    }
    Ok(entries)
}

// Reports the properties that are given twice in one list.
#[tactic(auto, using(crate::proofs::SinglePropertyLists::none_twice))]
fn check_repeated(finder: &mut FaultFinder, list: &[Association]) -> Result<(), AllocError>
    ensures { OnOk result (finder.new ≡ found finder.old
        (twice (property_entries (associations_view kept_place list.now)))) }
{
    if list.len() < 2 {
        return Ok(());
    }
    let entries = property_entries(finder.alloc(), list)?;
    check_twice(finder, entries.as_slice())
}

/// Reports the values of wrong shapes, and the properties that are given twice, in one list of properties.
/// Ignores properties that apply elsewhere. Errors: out of memory.
pub fn check_properties(
    finder: &mut FaultFinder,
    holder: PropertyHolder,
    list: &[Association],
) -> Result<(), AllocError>
    ensures { OnOk result (finder.new ≡ found finder.old
        (spec.list_faults holder (associations_view kept_place list.now))) }
{
    check_shapes(finder, holder, list);
    check_repeated(finder, list)
}
