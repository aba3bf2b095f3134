//! How names are spelled, with nothing between their tokens.
ghost use Rattle.std.specs.Prelude.{◌≡◌, ◌++◌, IfOk, OnOk, codes, option_map, string_bytes};
ghost use Rattle.aadl_tree.specs.proof.PlaceMaps.{kept_place};
ghost use Rattle.aadl_tree.specs.proof.NameViews.{identifier_view, name_view, reference_view};
ghost use Rattle.aadl_tree.specs.proof.DeclarationViews.{end_view, implementation_name_view};
ghost use Rattle.aadl_names.specs.QualifiedNameSpellings as spec;

use aadl_tree::{ConnectionEnd, Identifier, ImplementationName, Name, Reference};
use pals_base::Text;
use std::alloc::{AllocError, Global};

/// `A::B`
pub fn spelled_name(alloc: Global, name: &Name) -> Result<Text, AllocError>
    ensures { IfOk result (λ text. text ≡ spec.spelled_name (name_view kept_place name.now)) }
{
    let mut text = String::from_str(alloc, name.first.spelling.as_str())?;
    for word in &name.rest {
        text.push_str("::")?;
        text.push_str(word.spelling.as_str())?;
    }
    Ok(Text::new(text))
}

// Adds `A.b`, or `A`.
fn add_dotted(
    text: &mut String,
    first: &Identifier,
    second: &Option<Identifier>,
) -> Result<(), AllocError>
    ensures { OnOk result (string_bytes text.new
        ≡ string_bytes text.old ++ spec.dotted first.now.spelling
        (option_map (identifier_view kept_place) second.now)) }
{
    text.push_str(first.spelling.as_str())?;
    if let Some(second) = second {
        text.push_str(".")?;
        text.push_str(second.spelling.as_str())?;
    }
    Ok(())
}

/// `A.b`, or `A`
pub fn dotted(
    alloc: Global,
    first: &Identifier,
    second: &Option<Identifier>,
) -> Result<Text, AllocError>
    ensures { IfOk result (λ text. text ≡ spec.dotted first.now.spelling
        (option_map (identifier_view kept_place) second.now)) }
{
    let mut text = String::new(alloc);
    add_dotted(&mut text, first, second)?;
    Ok(Text::new(text))
}

/// `P::T.i`
pub fn spelled_reference(alloc: Global, reference: &Reference) -> Result<Text, AllocError>
    ensures { IfOk result (λ text. text ≡ spec.spelled_reference (reference_view kept_place reference.now)) }
{
    let mut text = String::new(alloc);
    for word in &reference.qualifiers {
        text.push_str(word.spelling.as_str())?;
        text.push_str("::")?;
    }
    add_dotted(&mut text, &reference.type_name, &reference.implementation)?;
    Ok(Text::new(text))
}

/// `T.i`
pub fn spelled_implementation(alloc: Global, name: &ImplementationName) -> Result<Text, AllocError>
    ensures { IfOk result (λ text. text ≡ spec.spelled_implementation (implementation_name_view kept_place name.now)) }
{
    joined(alloc, &name.component_type, &name.implementation)
}

/// `A.b`
pub fn joined(alloc: Global, first: &Identifier, second: &Identifier) -> Result<Text, AllocError>
    ensures { IfOk result (λ text. text ≡ first.now.spelling ++ codes "." ++ second.now.spelling) }
{
    let mut text = String::from_str(alloc, first.spelling.as_str())?;
    text.push_str(".")?;
    text.push_str(second.spelling.as_str())?;
    Ok(Text::new(text))
}

/// `a.x`, or `x`
pub fn spelled_end(alloc: Global, end: &ConnectionEnd) -> Result<Text, AllocError>
    ensures { IfOk result (λ text. text ≡ spec.spelled_end (end_view kept_place end.now)) }
{
    dotted(alloc, &end.first, &end.second)
}
