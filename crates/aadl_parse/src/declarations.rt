//! Parses declarations: types and implementations, each from its category to its end.
ghost use Rattle.std.specs.Prelude.{◌≡◌, [], ◌∷◌, flat_map, map};
ghost use Rattle.aadl_tree.specs.Terminals.{mark};
ghost use Rattle.aadl_tree.specs.SpellingParts.{token};
ghost use Rattle.aadl_tree.specs.Names.{identifier_parts};
ghost use Rattle.aadl_tree.specs.Declarations.{category_mark, declaration_parts, implementation_name_parts};
ghost use Rattle.aadl_tree.specs.Declarations.{ending_parts};
ghost use Rattle.aadl_tree.specs.proof.NameViews.{identifier_view};
ghost use Rattle.aadl_tree.specs.proof.DeclarationViews.{declaration_view, implementation_name_view};
ghost use Rattle.aadl_tree.specs.proof.PlaceMaps.{kept_place};
ghost use Rattle.aadl_grammar.specs.proof.GrammarSymbols as s;
ghost use Rattle.aadl_grammar.specs.proof.ParserAnswers.{Parses, AnyRoom, Room};
ghost use Rattle.aadl_parse.specs.proof.DeclarationRestsAndPackageParts.{rest_parts};

use crate::annexes::annexes;
use crate::declaration_members::{category, connections, features, own_properties, subcomponents};
use aadl_grammar::{ParseFault, Parsed, Reader, identifier};
use aadl_tree::{
    Annex, Association, Category, Connection, Declaration, Feature, Identifier, Implementation,
    ImplementationName, Mark, Subcomponent, TypeDeclaration,
};

/// `id "." id`
fn implementation_name(reader: &Reader<'_>, at: usize) -> Parsed<ImplementationName>
    ensures { Parses reader.now AnyRoom (s.implementation_name ∷ [])
        (λ x. implementation_name_parts (implementation_name_view kept_place x)) at result }
{
    let (component_type, next) = identifier(reader, at)?;
    let dot = reader.expect(next, Mark::Dot)?;
    let (implementation, end) = identifier(reader, dot)?;
    let name = ImplementationName {
        component_type,
        implementation,
    };
    Ok((name, end))
}

/// `"end" id ";"`
fn type_end(reader: &Reader<'_>, at: usize) -> Parsed<Identifier>
    ensures { Parses reader.now AnyRoom (s.type_end ∷ [])
        (λ x. ending_parts (identifier_parts (identifier_view kept_place x))) at result }
{
    let keyword = reader.expect(at, Mark::End)?;
    let (name, next) = identifier(reader, keyword)?;
    let end = reader.expect(next, Mark::Semicolon)?;
    Ok((name, end))
}

/// `"end" id "." id ";"`
fn implementation_end(reader: &Reader<'_>, at: usize) -> Parsed<ImplementationName>
    ensures { Parses reader.now AnyRoom (s.implementation_end ∷ [])
        (λ x. ending_parts (implementation_name_parts (implementation_name_view kept_place x))) at result }
{
    let keyword = reader.expect(at, Mark::End)?;
    let (name, next) = implementation_name(reader, keyword)?;
    let end = reader.expect(next, Mark::Semicolon)?;
    Ok((name, end))
}

/// A type without its category.
#[derive(Drop)]
pub struct TypeRest {
    pub name: Identifier,
    pub features: Vec<Feature>,
    pub properties: Vec<Association>,
    pub annexes: Vec<Annex>,
    pub end_name: Identifier,
}

/// An implementation without its category and `implementation`.
#[derive(Drop)]
pub struct ImplementationRest {
    pub name: ImplementationName,
    pub subcomponents: Vec<Subcomponent>,
    pub connections: Vec<Connection>,
    pub properties: Vec<Association>,
    pub annexes: Vec<Annex>,
    pub end_name: ImplementationName,
}

/// A declaration without its category.
#[derive(Drop)]
pub enum DeclarationRest {
    Type(TypeRest),
    Implementation(ImplementationRest),
}

/// Parses a declaration after its category.
fn after_category(reader: &Reader<'_>, at: usize, room: usize) -> Parsed<DeclarationRest>
    ensures { Parses reader.now (Room room) (s.after_category ∷ []) rest_parts at result }
{
    if let Some(next) = reader.take(at, Mark::Implementation) {
        let (name, next) = implementation_name(reader, next)?;
        let (subcomponents, next) = subcomponents(reader, next, room)?;
        let (connections, next) = connections(reader, next, room)?;
        let (properties, next) = own_properties(reader, next, room)?;
        let (annexes, next) = annexes(reader, next, room)?;
        let (end_name, end) = implementation_end(reader, next)?;
        let rest = ImplementationRest {
            name,
            subcomponents,
            connections,
            properties,
            annexes,
            end_name,
        };
        return Ok((DeclarationRest::Implementation(rest), end));
    }
    let Some((name, next)) = reader.word(at)? else {
        return Err(ParseFault::Syntax {
            at: reader.place(at),
        });
    };
    let (features, next) = features(reader, next, room)?;
    let (properties, next) = own_properties(reader, next, room)?;
    let (annexes, next) = annexes(reader, next, room)?;
    let (end_name, end) = type_end(reader, next)?;
    let rest = TypeRest {
        name,
        features,
        properties,
        annexes,
        end_name,
    };
    Ok((DeclarationRest::Type(rest), end))
}

/// Returns the declaration whose category is at this place of the text.
fn declared(at: usize, category: Category, rest: DeclarationRest) -> Declaration
    ensures { declaration_parts (declaration_view kept_place result) ≡ token (mark (category_mark category)) (at ∷ [])
        ∷ rest_parts rest }
{
    match rest {
        DeclarationRest::Type(
            TypeRest {
                name,
                features,
                properties,
                annexes,
                end_name,
            },
        ) => Declaration::Type(TypeDeclaration {
            at,
            category,
            name,
            features,
            properties,
            annexes,
            end_name,
        }),
        DeclarationRest::Implementation(
            ImplementationRest {
                name,
                subcomponents,
                connections,
                properties,
                annexes,
                end_name,
            },
        ) => Declaration::Implementation(Implementation {
            at,
            category,
            name,
            subcomponents,
            connections,
            properties,
            annexes,
            end_name,
        }),
    }
}

/// `{ type | implementation }`
pub fn declarations(reader: &Reader<'_>, at: usize, room: usize) -> Parsed<Vec<Declaration>>
    ensures { Parses reader.now (Room room) (s.declarations ∷ [])
        (λ x. flat_map declaration_parts (map (declaration_view kept_place) x.items)) at result }
{
    let mut found = Vec::new(reader.alloc);
    let mut next = at;
    while let Some((category, behind)) = category(reader, next) {
        let place = reader.place(next);
        let (rest, behind) = after_category(reader, behind, room)?;
        found.push(declared(place, category, rest))?;
        next = behind;
    }
    Ok((found, next))
}
