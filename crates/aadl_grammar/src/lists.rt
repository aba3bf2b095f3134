//! Parses lists, item by item.
ghost use Rattle.std.specs.Prelude.{◌≡◌, [], ◌∷◌, MatchOption, None, flat_map};
ghost use Rattle.aadl_tree.specs.SpellingParts.{Section, section_mark};
ghost use Rattle.aadl_tree.specs.Declarations.{section_parts};
ghost use Rattle.aadl_grammar.specs.proof.GrammarSymbols.{Symbol};
ghost use Rattle.aadl_grammar.specs.proof.ParserAnswers.{here, Parses};
ghost use Rattle.aadl_grammar.specs.proof.ListAnswers.{Allows, Follows, NoneFollows, IsSection, Advances, ItemsOf};
ghost use Rattle.aadl_grammar.specs.proof.ListAnswers.{ParsesMore};

use crate::parse_input::{Parsed, Reader};
use aadl_tree::Mark;

/// Returns the index at which the next item begins, or `None` if no item follows. An item begins after its mark
/// or, if the items have no mark, at a word.
fn next_item(reader: &Reader<'_>, at: usize, before: Option<Mark>) -> Option<usize>
    ensures { MatchOption result (NoneFollows before (here reader.now at))
        (λ start. Follows before (here reader.now at) (here reader.now start)) }
{
    match before {
        Some(mark) => reader.take(at, mark),
        None => { if reader.is_word(at) { Some(at) } else { None } }
    }
}

/// Parses `{ mark item }`, or `{ item }` for items that begin with a word, and appends the items to those
/// already found. Errors: a fault of an item.
pub fn followers<T: Drop, F: Fn(usize) -> Parsed<T>>(
    reader: &Reader<'_>,
    at: usize,
    before: Option<Mark>,
    mut found: Vec<T>,
    item: F,
) -> Parsed<Vec<T>>
    requires callable { F.IsAlwaysCallable item }
    requires advances { Advances reader.now (λ a r. F.post item a r) }
    ensures { ParsesMore reader.now before (λ a r. F.post item a r) found.items at result }
{
    let mut rest = at;
    while let Some(start) = next_item(reader, rest, before) {
        let (next, behind) = item(start)?;
        found.push(next)?;
        rest = behind;
    }
    Ok((found, rest))
}

/// Parses `[ keyword ( "none" ";" | item { item } ) ]` for items that begin with a word. Errors: `Syntax` if
/// the keyword is not followed by `none ;` or an item, or a fault of an item.
pub fn section<T: Drop, F: Fn(usize) -> Parsed<T>>(
    reader: &Reader<'_>,
    at: usize,
    keyword: Mark,
    item: F,
) -> Parsed<Vec<T>>
    requires callable { F.IsAlwaysCallable item }
    requires advances { Advances reader.now (λ a r. F.post item a r) }
    ensures { (kind : Section) (symbol : Symbol) (of : ItemsOf reader.now None (λ a r. F.post item a r))
        → section_mark kind ≡ keyword → IsSection keyword of.item of.list symbol
        → Parses reader.now (Allows of.allowed) (symbol ∷ [])
        (λ x. section_parts kind (flat_map of.parts x.items)) at result }
{
    let mut found = Vec::new(reader.alloc);
    let Some(next) = reader.take(at, keyword) else {
        return Ok((found, at));
    };
    if let Some(nothing) = reader.take(next, Mark::Nothing) {
        let end = reader.expect(nothing, Mark::Semicolon)?;
        return Ok((found, end));
    }
    let (first, next) = item(next)?;
    found.push(first)?;
    followers(reader, next, None, found, item)
}
