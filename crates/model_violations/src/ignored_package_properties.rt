//! The properties of a package without meaning at their position.
ghost use Rattle.std.specs.Prelude.{◌≡◌, ◌++◌, IfOk, OnOk, flat_map};
ghost use Rattle.std.specs.List.{enumerate_from};
ghost use Rattle.aadl_tree.specs.proof.PackageViews.{placed};
ghost use Rattle.model_violations.specs.IgnoredProperties as spec;

use crate::distinct_spellings::first_spellings;
use crate::ignored_declaration_properties::add_declaration;
use aadl_tree::PackageTree;
use aadl_uses::Uses;
use pals_base::{ItemList, NoMemory, Text};
use std::alloc::Global;

// Appends the names in the declarations, for the numbers of the root's implementation and type.
fn add_declarations(
    alloc: Global,
    tree: &PackageTree,
    root: usize,
    root_type: Option<usize>,
    found: &mut ItemList<Text>,
) -> Result<(), NoMemory>
    ensures { OnOk result (found.new ≡ found.old
        ++ flat_map (spec.declaration_ignored root root_type) (enumerate_from 0 (placed tree.now).declarations)) }
{
    for (number, declaration) in tree.declarations.iter().enumerate() {
        add_declaration(alloc, root, root_type, number, declaration, found)?;
    }
    Ok(())
}

/// Returns the names of the properties of a package without meaning at their position, in the order of first
/// occurrence, each in its first spelling. Errors: out of memory.
pub fn ignored_names(
    alloc: Global,
    uses: &Uses<'_>,
    root: usize,
) -> Result<ItemList<Text>, NoMemory>
    ensures { IfOk result (λ found. found ≡ spec.ignored_names (placed uses.now.names.tree.now) root) }
{
    let root_type = uses.type_number(root);
    let mut found = ItemList::new(alloc);
    add_declarations(alloc, uses.names.tree, root, root_type, &mut found)?;
    first_spellings(alloc, found.as_slice())
}
