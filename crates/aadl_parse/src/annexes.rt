//! Parses the annexes of types and implementations.
ghost use Rattle.std.specs.Prelude.{[], ◌∷◌, flat_map, map};
ghost use Rattle.aadl_tree.specs.Annexes.{annex_parts, content_parts};
ghost use Rattle.aadl_tree.specs.proof.AnnexViews.{annex_view, content_view};
ghost use Rattle.aadl_tree.specs.proof.PlaceMaps.{kept_place};
ghost use Rattle.aadl_grammar.specs.proof.GrammarSymbols as s;
ghost use Rattle.aadl_grammar.specs.proof.ParserAnswers.{Parses, Room};

use aadl_grammar::{ParseFault, Parsed, Reader, identifier};
use aadl_tree::{Annex, AnnexContent, Mark};
use behaviour_parse::body;

/// `unread | "{**" behaviour "**}"`
fn content(reader: &Reader<'_>, at: usize, room: usize) -> Parsed<AnnexContent>
    ensures { Parses reader.now (Room room) (s.content ∷ [])
        (λ x. content_parts (content_view kept_place x)) at result }
{
    if let Some((bytes, end)) = reader.unread(at)? {
        return Ok((AnnexContent::Unread(bytes), end));
    }
    let Some(next) = reader.take(at, Mark::AnnexOpen) else {
        return Err(ParseFault::Syntax {
            at: reader.place(at),
        });
    };
    let inner = reader.deeper(at, room)?;
    let (tree, next) = body(reader, next, inner)?;
    let end = reader.expect(next, Mark::AnnexClose)?;
    Ok((AnnexContent::Behaviour(tree), end))
}

/// `"annex" id ( unread | "{**" behaviour "**}" ) ";"`
fn annex(reader: &Reader<'_>, at: usize, room: usize) -> Parsed<Annex>
    ensures { Parses reader.now (Room room) (s.annex ∷ []) (λ x. annex_parts (annex_view kept_place x)) at result }
{
    let place = reader.place(at);
    let keyword = reader.expect(at, Mark::Annex)?;
    let (language, next) = identifier(reader, keyword)?;
    let (content, next) = content(reader, next, room)?;
    let end = reader.expect(next, Mark::Semicolon)?;
    let annex = Annex {
        at: place,
        language,
        content,
    };
    Ok((annex, end))
}

/// `{ annex }`
pub fn annexes(reader: &Reader<'_>, at: usize, room: usize) -> Parsed<Vec<Annex>>
    ensures { Parses reader.now (Room room) (s.annexes ∷ [])
        (λ x. flat_map annex_parts (map (annex_view kept_place) x.items)) at result }
{
    let mut found = Vec::new(reader.alloc);
    let mut rest = at;
    while let Some(_behind) = reader.take(rest, Mark::Annex) {
        let (next, behind) = annex(reader, rest, room)?;
        found.push(next)?;
        rest = behind;
    }
    Ok((found, rest))
}
