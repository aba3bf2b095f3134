//! The names of types.
ghost use Rattle.std.specs.Prelude.{◌≡◌, map};
ghost use Rattle.aadl_tree.specs.Names.{same_name};
ghost use Rattle.aadl_tree.specs.proof.PlaceMaps.{kept_place};
ghost use Rattle.aadl_tree.specs.proof.NameViews.{identifier_view, reference_view};
ghost use Rattle.annex_resolve.specs.ExpressionTypesAndFindings.{is_base_types, is_base_type, kind_named};

use aadl_tree::{Identifier, Reference};
use pals_base::Kind;

// Whether an identifier is a word, without regard to case. Most have the same spelling.
#[tactic(auto, using(crate::proofs::EqualSpellings::same_spelling))]
fn is_spelled(identifier: &Identifier, word: &str) -> bool
    ensures { result ≡ same_name identifier.now.spelling word.now }
{
    let spelling = identifier.spelling.as_str();
    spelling == word || spelling.eq_ignore_ascii_case(word)
}

// Whether these are the qualifiers of a base type.
fn is_base_types(qualifiers: &[Identifier]) -> bool
    ensures { result ≡ is_base_types (map (identifier_view kept_place) qualifiers.now) }
{
    match qualifiers {
        [package] => is_spelled(package, "Base_Types"),
        _ => false,
    }
}

// Whether a reference is to the base type with a name.
fn is_base_type(name: &str, reference: &Reference) -> bool
    ensures { result ≡ is_base_type name.now (reference_view kept_place reference.now) }
{
    is_base_types(&reference.qualifiers)
        && is_spelled(&reference.type_name, name)
        && reference.implementation.is_none()
}

/// Returns the type that a reference names: `Base_Types::Integer` or `Base_Types::Boolean`, or `None` for
/// another type.
pub fn kind_named(reference: &Reference) -> Option<Kind>
    ensures { result ≡ kind_named (reference_view kept_place reference.now) }
{
    if is_base_type("Integer", reference) {
        Some(Kind::Integer)
    } else if is_base_type("Boolean", reference) {
        Some(Kind::Boolean)
    } else {
        None
    }
}
