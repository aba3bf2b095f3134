//! Parses names, paths and references.
ghost use Rattle.std.specs.Prelude.{[], ◌∷◌, map, flat_map, option_map, Some};
ghost use Rattle.aadl_tree.specs.declared.mark.Mark.TheVariants as k;
ghost use Rattle.aadl_tree.specs.SpellingParts.{behind, parts_if};
ghost use Rattle.aadl_tree.specs.Names.{identifier_parts, name_parts, path_parts, identifiers_parts, reference_parts};
ghost use Rattle.aadl_tree.specs.proof.NameViews.{identifier_view, name_view, path_view, identifiers_view};
ghost use Rattle.aadl_tree.specs.proof.NameViews.{reference_view};
ghost use Rattle.aadl_tree.specs.proof.PlaceMaps.{kept_place};
ghost use Rattle.aadl_grammar.specs.proof.GrammarSymbols as s;
ghost use Rattle.aadl_grammar.specs.proof.GrammarSymbols.{Symbol};
ghost use Rattle.aadl_grammar.specs.proof.ParserAnswers.{Parses, AnyRoom};
ghost use Rattle.aadl_grammar.specs.proof.ListAnswers.{IsList};

use crate::lists::followers;
use crate::parse_fault::ParseFault;
use crate::parse_input::{Parsed, Reader};
use aadl_tree::{Identifier, Identifiers, Mark, Name, Path, Reference};

/// `id`
pub fn identifier(reader: &Reader<'_>, at: usize) -> Parsed<Identifier>
    ensures { Parses reader.now AnyRoom (s.identifier ∷ [])
        (λ x. identifier_parts (identifier_view kept_place x)) at result }
{
    match reader.word(at)? {
        Some(found) => Ok(found),
        None => Err(ParseFault::Syntax {
            at: reader.place(at),
        }),
    }
}

/// `{ mark id }`
fn more_identifiers(reader: &Reader<'_>, at: usize, mark: Mark) -> Parsed<Vec<Identifier>>
    ensures { (list : Symbol) → IsList (Some mark) s.identifier list → Parses reader.now AnyRoom (list ∷ [])
        (λ x. flat_map (behind mark identifier_parts) (map (identifier_view kept_place) x.items)) at result }
{
    let none = Vec::new(reader.alloc);
    followers(reader, at, Some(mark), none, |at| identifier(reader, at))
}

/// `id { "." id }`
pub fn path(reader: &Reader<'_>, at: usize) -> Parsed<Path>
    ensures { Parses reader.now AnyRoom (s.path ∷ []) (λ x. path_parts (path_view kept_place x)) at result }
{
    let (first, next) = identifier(reader, at)?;
    let (others, next) = more_identifiers(reader, next, Mark::Dot)?;
    let path = Path {
        first,
        rest: others,
    };
    Ok((path, next))
}

/// `id { "," id }`
pub fn identifiers(reader: &Reader<'_>, at: usize) -> Parsed<Identifiers>
    ensures { Parses reader.now AnyRoom (s.identifier ∷ s.more_identifiers ∷ [])
        (λ x. identifiers_parts (identifiers_view kept_place x)) at result }
{
    let (first, next) = identifier(reader, at)?;
    let (others, next) = more_identifiers(reader, next, Mark::Comma)?;
    let identifiers = Identifiers {
        first,
        rest: others,
    };
    Ok((identifiers, next))
}

/// `id { "::" id }`
pub fn name(reader: &Reader<'_>, at: usize) -> Parsed<Name>
    ensures { Parses reader.now AnyRoom (s.name ∷ []) (λ x. name_parts (name_view kept_place x)) at result }
{
    let (first, next) = identifier(reader, at)?;
    let (others, next) = more_identifiers(reader, next, Mark::Scope)?;
    let name = Name {
        first,
        rest: others,
    };
    Ok((name, next))
}

/// `[ "." id ]`
pub fn dot_identifier(reader: &Reader<'_>, at: usize) -> Parsed<Option<Identifier>>
    ensures { Parses reader.now AnyRoom (s.dot_identifier ∷ [])
        (λ x. parts_if (behind k.Dot identifier_parts) (option_map (identifier_view kept_place) x)) at result }
{
    let Some(next) = reader.take(at, Mark::Dot) else {
        return Ok((None, at));
    };
    let (found, next) = identifier(reader, next)?;
    Ok((Some(found), next))
}

/// `{ id "::" } id [ "." id ]`
pub fn reference(reader: &Reader<'_>, at: usize) -> Parsed<Reference>
    ensures { Parses reader.now AnyRoom (s.reference ∷ [])
        (λ x. reference_parts (reference_view kept_place x)) at result }
{
    let mut qualifiers = Vec::new(reader.alloc);
    let (mut type_name, mut rest) = identifier(reader, at)?;
    while let Some(behind) = reader.take(rest, Mark::Scope) {
        let (next, behind) = identifier(reader, behind)?;
        qualifiers.push(type_name)?;
        type_name = next;
        rest = behind;
    }
    let (implementation, rest) = dot_identifier(reader, rest)?;
    let reference = Reference {
        qualifiers,
        type_name,
        implementation,
    };
    Ok((reference, rest))
}
