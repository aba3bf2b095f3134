//! The entries of each namespace.
ghost use Rattle.std.specs.Prelude.{◌≡◌, ◌++◌, [], ◌∷◌, OnOk, IfOk, map};
ghost use Rattle.aadl_tree.specs.Names.{identifiers};
ghost use Rattle.std.specs.List.{filter_map};
ghost use Rattle.aadl_tree.specs.proof.PackageViews.{placed};
ghost use Rattle.aadl_tree.specs.proof.NameViews.{identifier_view, identifiers_view};
ghost use Rattle.aadl_tree.specs.proof.DeclarationViews.{feature_view, subcomponent_view, connection_view};
ghost use Rattle.aadl_tree.specs.proof.DeclarationViews.{implementation_view, declaration_view};
ghost use Rattle.aadl_tree.specs.proof.AnnexViews.{annex_tree_view};
ghost use Rattle.aadl_tree.specs.proof.PlaceMaps.{kept_place};
ghost use Rattle.aadl_names.specs.DuplicateNames.{entry_of};
ghost use Rattle.aadl_names.specs.DuplicatesByNamespace as spec;

use crate::behaviour_sections::{states_in, variables_in};
use aadl_names::SpelledName;
use aadl_names::declared_name::entry_of;
use aadl_names::qualified_names::spelled_implementation;
use aadl_tree::{
    AnnexTree, Connection, Declaration, Feature, Identifier, Identifiers, Implementation,
    PackageTree, Spelling, Subcomponent,
};
use pals_base::ItemList;
use std::alloc::{AllocError, Global};

/// Returns the entries of ports. Errors: out of memory.
pub fn port_entries(alloc: Global, ports: &[Feature]) -> Result<ItemList<SpelledName>, AllocError>
    ensures { IfOk result (λ entries. entries ≡ spec.port_entries (map (feature_view kept_place) ports.now)) }
{
    let mut entries = ItemList::new(alloc);
    for port in ports {
        add_word(alloc, &mut entries, &port.name)?;
    }
    Ok(entries)
}

/// Returns the entries of subcomponents and connections. Errors: out of memory.
pub fn member_entries(
    alloc: Global,
    x: &Implementation,
) -> Result<ItemList<SpelledName>, AllocError>
    ensures { IfOk result (λ entries. entries ≡ spec.member_entries (implementation_view kept_place x.now)) }
{
    let mut entries = ItemList::new(alloc);
    add_subcomponents(alloc, &mut entries, x.subcomponents.as_slice())?;
    add_connections(alloc, &mut entries, x.connections.as_slice())?;
    Ok(entries)
}

fn add_subcomponents(
    alloc: Global,
    entries: &mut ItemList<SpelledName>,
    subs: &[Subcomponent],
) -> Result<(), AllocError>
    ensures { OnOk result (entries.new ≡ entries.old
        ++ map (λ s. entry_of s.name) (map (subcomponent_view kept_place) subs.now)) }
{
    for sub in subs {
        add_word(alloc, entries, &sub.name)?;
    }
    Ok(())
}

fn add_connections(
    alloc: Global,
    entries: &mut ItemList<SpelledName>,
    connections: &[Connection],
) -> Result<(), AllocError>
    ensures { OnOk result (entries.new ≡ entries.old
        ++ map (λ c. entry_of c.name) (map (connection_view kept_place) connections.now)) }
{
    for connection in connections {
        add_word(alloc, entries, &connection.name)?;
    }
    Ok(())
}

/// Returns the entries of a behaviour's variables. Errors: out of memory.
pub fn variable_entries(
    alloc: Global,
    behaviour: &AnnexTree,
) -> Result<ItemList<SpelledName>, AllocError>
    ensures { IfOk result (λ entries. entries ≡ spec.variable_entries (annex_tree_view kept_place behaviour.now)) }
{
    let mut entries = ItemList::new(alloc);
    for declaration in variables_in(behaviour) {
        add_words(alloc, &mut entries, &declaration.names)?;
    }
    Ok(entries)
}

/// Returns the entries of a behaviour's states. Errors: out of memory.
pub fn state_entries(
    alloc: Global,
    behaviour: &AnnexTree,
) -> Result<ItemList<SpelledName>, AllocError>
    ensures { IfOk result (λ entries. entries ≡ spec.state_entries (annex_tree_view kept_place behaviour.now)) }
{
    let mut entries = ItemList::new(alloc);
    for declaration in states_in(behaviour) {
        add_words(alloc, &mut entries, &declaration.names)?;
    }
    Ok(entries)
}

/// Returns the entries of types. Errors: out of memory.
pub fn type_entries(alloc: Global, tree: &PackageTree) -> Result<ItemList<SpelledName>, AllocError>
    ensures { IfOk result (λ entries. entries ≡ filter_map spec.type_entry (placed tree.now).declarations) }
{
    let mut entries = ItemList::new(alloc);
    for declaration in &tree.declarations {
        add_type(alloc, &mut entries, declaration)?;
    }
    Ok(entries)
}

/// Returns the entries of implementations. Errors: out of memory.
pub fn implementation_entries(
    alloc: Global,
    tree: &PackageTree,
) -> Result<ItemList<SpelledName>, AllocError>
    ensures { IfOk result (λ entries. entries ≡ filter_map spec.implementation_entry (placed tree.now).declarations) }
{
    let mut entries = ItemList::new(alloc);
    for declaration in &tree.declarations {
        add_implementation(alloc, &mut entries, declaration)?;
    }
    Ok(entries)
}

fn add_type(
    alloc: Global,
    entries: &mut ItemList<SpelledName>,
    declaration: &Declaration,
) -> Result<(), AllocError>
    ensures { OnOk result (entries.new ≡ entries.old
        ++ filter_map spec.type_entry (declaration_view kept_place declaration.now ∷ [])) }
{
    match declaration {
        Declaration::Type(x) => {
            let name = Spelling::from_str(alloc, x.name.spelling.as_str())?;
            entries.push(SpelledName { name, at: x.at })?;
            Ok(())
        }
        Declaration::Implementation(_) => Ok(()),
    }
}

fn add_implementation(
    alloc: Global,
    entries: &mut ItemList<SpelledName>,
    declaration: &Declaration,
) -> Result<(), AllocError>
    ensures { OnOk result (entries.new ≡ entries.old
        ++ filter_map spec.implementation_entry (declaration_view kept_place declaration.now ∷ [])) }
{
    match declaration {
        Declaration::Type(_) => Ok(()),
        Declaration::Implementation(x) => {
            let spelled = spelled_implementation(alloc, &x.name)?;
            let name = Spelling::from_str(alloc, spelled.as_str())?;
            entries.push(SpelledName { name, at: x.at })?;
            Ok(())
        }
    }
}

fn add_words(
    alloc: Global,
    entries: &mut ItemList<SpelledName>,
    words: &Identifiers,
) -> Result<(), AllocError>
    ensures { OnOk result (entries.new ≡ entries.old
        ++ map entry_of (identifiers (identifiers_view kept_place words.now))) }
{
    add_word(alloc, entries, &words.first)?;
    for word in &words.rest {
        add_word(alloc, entries, word)?;
    }
    Ok(())
}

fn add_word(
    alloc: Global,
    entries: &mut ItemList<SpelledName>,
    word: &Identifier,
) -> Result<(), AllocError>
    ensures { OnOk result (entries.new ≡ entries.old ++ entry_of (identifier_view kept_place word.now) ∷ []) }
{
    entries.push(entry_of(alloc, word)?)?;
    Ok(())
}
