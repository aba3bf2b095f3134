//! The types of the implementations of a package.
ghost use Rattle.std.specs.Prelude.{◌≡◌, IfOk, map};
ghost use Rattle.aadl_tree.specs.proof.PackageViews.{placed};
ghost use Rattle.aadl_tree.specs.proof.DeclarationViews.{declaration_view};
ghost use Rattle.aadl_tree.specs.proof.PlaceMaps.{kept_place};
ghost use Rattle.aadl_uses.specs.proof.ImplementationTypes.{type_in};

use aadl_names::Names;
use aadl_names::declarations_by_number::type_number;
use aadl_tree::Declaration;
use pals_base::ItemList;
use std::alloc::{AllocError, Global};

/// Returns the number of the type of each declaration that is an implementation. Errors: out of memory.
pub fn types_of(
    alloc: Global,
    names: &Names<'_>,
    declarations: &[Declaration],
) -> Result<ItemList<Option<usize>>, AllocError>
    ensures { IfOk result (λ types. types ≡ map (type_in (placed names.now.tree.now))
        (map (declaration_view kept_place) declarations.now)) }
{
    let mut types = ItemList::new(alloc);
    for declaration in declarations {
        types.push(type_of(alloc, names, declaration)?)?;
    }
    Ok(types)
}

// The type of a declaration that is an implementation.
fn type_of(
    alloc: Global,
    names: &Names<'_>,
    declaration: &Declaration,
) -> Result<Option<usize>, AllocError>
    ensures { IfOk result (λ number. number ≡ type_in (placed names.now.tree.now)
        (declaration_view kept_place declaration.now)) }
{
    match declaration {
        Declaration::Type(_) => Ok(None),
        Declaration::Implementation(x) => type_number(alloc, names, x),
    }
}
