//! Parses a whole package: its name, its imports, its declarations, and its end.
ghost use Rattle.std.specs.Prelude.{[], ◌∷◌, flat_map, map};
ghost use Rattle.aadl_tree.specs.declared.mark.Mark.TheVariants as k;
ghost use Rattle.aadl_tree.specs.SpellingParts.{behind};
ghost use Rattle.aadl_tree.specs.Names.{name_parts};
ghost use Rattle.aadl_tree.specs.Declarations.{with_parts, ending_parts, package_parts};
ghost use Rattle.aadl_tree.specs.proof.NameViews.{name_view};
ghost use Rattle.aadl_tree.specs.proof.DeclarationViews.{with_view};
ghost use Rattle.aadl_tree.specs.proof.PlaceMaps.{kept_place};
ghost use Rattle.aadl_grammar.specs.proof.GrammarSymbols as s;
ghost use Rattle.aadl_grammar.specs.proof.ParserAnswers.{Parses, AnyRoom, Room};
ghost use Rattle.aadl_parse.specs.proof.DeclarationRestsAndPackageParts.{package_of};

use crate::declarations::declarations;
use aadl_grammar::{Parsed, Reader, followers, name};
use aadl_tree::{Declaration, Mark, Name, With};

/// `"end" name ";"`
fn package_end(reader: &Reader<'_>, at: usize) -> Parsed<Name>
    ensures { Parses reader.now AnyRoom (s.package_end ∷ [])
        (λ x. ending_parts (name_parts (name_view kept_place x))) at result }
{
    let keyword = reader.expect(at, Mark::End)?;
    let (found, next) = name(reader, keyword)?;
    let end = reader.expect(next, Mark::Semicolon)?;
    Ok((found, end))
}

/// `{ "," name }`
fn more_names(reader: &Reader<'_>, at: usize) -> Parsed<Vec<Name>>
    ensures { Parses reader.now AnyRoom (s.more_names ∷ [])
        (λ x. flat_map (behind k.Comma name_parts) (map (name_view kept_place) x.items)) at result }
{
    let none = Vec::new(reader.alloc);
    followers(reader, at, Some(Mark::Comma), none, |at| name(reader, at))
}

/// `{ "with" name { "," name } ";" }`
fn withs(reader: &Reader<'_>, at: usize) -> Parsed<Vec<With>>
    ensures { Parses reader.now AnyRoom (s.withs ∷ [])
        (λ x. flat_map with_parts (map (with_view kept_place) x.items)) at result }
{
    let mut found = Vec::new(reader.alloc);
    let mut rest = at;
    while let Some(keyword) = reader.take(rest, Mark::With) {
        let (first, next) = name(reader, keyword)?;
        let (others, next) = more_names(reader, next)?;
        let end = reader.expect(next, Mark::Semicolon)?;
        found.push(With {
            first,
            rest: others,
        })?;
        rest = end;
    }
    Ok((found, rest))
}

/// The parts of a package.
#[derive(Drop)]
pub struct PackageParts {
    pub name: Name,
    pub withs: Vec<With>,
    pub declarations: Vec<Declaration>,
    pub end_name: Name,
}

/// `"package" name "public" { with } { type | implementation } "end" name ";"`
pub fn package(reader: &Reader<'_>, at: usize, room: usize) -> Parsed<PackageParts>
    ensures { Parses reader.now (Room room) (s.a_package ∷ []) (λ x. package_parts (package_of x)) at result }
{
    let keyword = reader.expect(at, Mark::Package)?;
    let (name, next) = name(reader, keyword)?;
    let public = reader.expect(next, Mark::Public)?;
    let (withs, next) = withs(reader, public)?;
    let (declarations, next) = declarations(reader, next, room)?;
    let (end_name, end) = package_end(reader, next)?;
    let package = PackageParts {
        name,
        withs,
        declarations,
        end_name,
    };
    Ok((package, end))
}
