//! The look-up of properties.
ghost use Rattle.std.specs.Prelude.{◌≡◌, ◌&&◌, option_map, option_copied};
ghost use Rattle.aadl_tree.specs.proof.PlaceMaps.{kept_place};
ghost use Rattle.aadl_tree.specs.proof.PackageViews.{placed};
ghost use Rattle.aadl_tree.specs.proof.ValueViews.{association_view, associations_view};
ghost use Rattle.aadl_tree.specs.proof.DeclarationViews.{subcomponent_view};
ghost use Rattle.aadl_names.specs.RecognisedProperties.{name_of, counts, is_named, association_named};
ghost use Rattle.aadl_names.specs.NameResolution.{type_numbered};
ghost use Rattle.aadl_uses.specs.proof.ImplementationTypes.{type_number_at};
ghost use Rattle.component_checks.specs.PropertyLookup as spec;

use aadl_names::PropertyName;
use aadl_names::declarations_by_number::{subcomponent_at, type_numbered};
use aadl_names::name_comparison::is_spelled;
use aadl_tree::{Association, PackageTree, Subcomponent};
use aadl_uses::{SubAt, Uses};

/// Returns the subcomponent with the number of its declaration and its own number there.
pub fn sub_of<'t>(tree: &'t PackageTree, sub: SubAt) -> Option<&'t Subcomponent>
    ensures { option_map (subcomponent_view kept_place) (option_copied result) ≡ spec.sub_of (placed tree.now) sub }
{
    subcomponent_at(tree, sub.declaration, sub.sub)
}

// Whether an association gives a property to its owner.
#[tactic(auto, using(aadl_tree::proofs::ValueViews::view_out_association))]
fn gives(association: &Association, property: PropertyName) -> bool
    ensures { result
        ≡ (counts (association_view kept_place association.now) && is_named (name_of property)
        (association_view kept_place association.now)) }
{
    association.applies_to.is_empty() && is_spelled(&association.name, property.name())
}

/// Returns the first association of a property in a list.
pub fn property_in(list: &[Association], property: PropertyName) -> Option<&Association>
    ensures { option_map (association_view kept_place) (option_copied result)
        ≡ association_named (associations_view kept_place list.now) (name_of property) }
{
    for association in list {
        if gives(association, property) {
            return Some(association);
        }
    }
    None
}

// A property of the type of an implementation, by the implementation's number.
fn type_property<'t>(
    uses: &Uses<'t>,
    number: usize,
    property: PropertyName,
) -> Option<&'t Association>
    ensures { option_map (association_view kept_place) (option_copied result)
        ≡ spec.first_in property (spec.type_lists
        (type_numbered (placed uses.now.names.tree.now) (type_number_at (placed uses.now.names.tree.now) number))) }
{
    match type_numbered(uses.names.tree, uses.type_number(number)) {
        Some(of_type) => property_in(of_type.properties.as_slice(), property),
        None => None,
    }
}

/// Returns a property of the root, from its implementation or else from its type.
pub fn root_property<'t>(
    uses: &Uses<'t>,
    root: usize,
    property: PropertyName,
) -> Option<&'t Association>
    ensures { option_map (association_view kept_place) (option_copied result)
        ≡ spec.first_in property (spec.root_lists (placed uses.now.names.tree.now) root) }
{
    let Some(x) = uses.implementation(root) else {
        return None;
    };
    match property_in(x.properties.as_slice(), property) {
        Some(found) => Some(found),
        None => type_property(uses, root, property),
    }
}

/// Returns the subcomponent of a component.
pub fn innermost<'t>(tree: &'t PackageTree, subs: &[SubAt]) -> Option<&'t Subcomponent>
    ensures { option_map (subcomponent_view kept_place) (option_copied result)
        ≡ spec.innermost (placed tree.now) subs.now }
{
    match subs.last() {
        Some(sub) => sub_of(tree, *sub),
        None => None,
    }
}
