//! The root of a package.
ghost use Rattle.std.specs.Prelude.{◌≡◌, ◌&&◌, IfOk, map};
ghost use Rattle.aadl_tree.specs.Names.{same_name};
ghost use Rattle.std.specs.List.{position_from};
ghost use Rattle.aadl_tree.specs.proof.PlaceMaps.{kept_place};
ghost use Rattle.aadl_tree.specs.proof.PackageViews.{placed};
ghost use Rattle.aadl_tree.specs.proof.DeclarationViews.{declaration_view, implementation_view};
ghost use Rattle.aadl_tree.specs.proof.DeclarationViews.{implementation_name_view};
ghost use Rattle.aadl_names.specs.QualifiedNameSpellings.{spelled_implementation};
ghost use Rattle.aadl_names.specs.NameResolution as spec;

use aadl_names::qualified_names::spelled_implementation;
use aadl_tree::{Category, Declaration, Implementation, PackageTree};
use pals_base::Text;
use std::alloc::{AllocError, Global};

/// Returns the number of the first system implementation with a name, or `None` if there is none. Errors: out
/// of memory.
pub fn root_number(
    alloc: Global,
    tree: &PackageTree,
    name: &Text,
) -> Result<Option<usize>, AllocError>
    ensures { IfOk result (λ number. number ≡ spec.root_number (placed tree.now) name.now) }
{
    first_root(alloc, tree.declarations.as_slice(), name)
}

fn first_root(
    alloc: Global,
    declarations: &[Declaration],
    name: &Text,
) -> Result<Option<usize>, AllocError>
    ensures { IfOk result (λ number. number ≡ position_from (spec.is_root name.now) 0
        (map (declaration_view kept_place) declarations.now)) }
{
    for (number, declaration) in declarations.iter().enumerate() {
        if is_root(alloc, declaration, name)? {
            return Ok(Some(number));
        }
    }
    Ok(None)
}

// Whether a declaration is the system implementation with a name.
fn is_root(alloc: Global, declaration: &Declaration, name: &Text) -> Result<bool, AllocError>
    ensures { IfOk result (λ is. is ≡ spec.is_root name.now (declaration_view kept_place declaration.now)) }
{
    match declaration {
        Declaration::Type(_) => Ok(false),
        Declaration::Implementation(x) => is_root_implementation(alloc, x, name),
    }
}

fn is_root_implementation(
    alloc: Global,
    x: &Implementation,
    name: &Text,
) -> Result<bool, AllocError>
    ensures { IfOk result (λ is. is ≡ (spec.is_system (implementation_view kept_place x.now).category
        && same_name name.now (spelled_implementation (implementation_view kept_place x.now).name))) }
{
    if !is_system(x.category) {
        return Ok(false);
    }
    let spelled = is_spelled(alloc, x, name)?;
    Ok(spelled)
}

fn is_spelled(alloc: Global, x: &Implementation, name: &Text) -> Result<bool, AllocError>
    ensures { IfOk result (λ is. is ≡ same_name name.now
        (spelled_implementation (implementation_name_view kept_place x.now.name))) }
{
    let spelled = spelled_implementation(alloc, &x.name)?;
    Ok(same_text(name.as_str(), spelled.as_str()))
}

fn same_text(a: &str, b: &str) -> bool
    ensures { result ≡ same_name a.now b.now }
{
    a.eq_ignore_ascii_case(b)
}

fn is_system(category: Category) -> bool
    ensures { result ≡ spec.is_system category }
{
    match category {
        Category::System => true,
        Category::Process => false,
        Category::Thread => false,
    }
}
