//! Parses features, subcomponents, connections, and their sections.
ghost use Rattle.std.specs.Prelude.{[], ◌∷◌, flat_map, map, option_map, MatchOption};
ghost use Rattle.aadl_tree.specs.declared.mark.Mark.TheVariants as k;
ghost use Rattle.aadl_tree.specs.SpellingParts.{plain, parts_if, feature_section, subcomponent_section};
ghost use Rattle.aadl_tree.specs.SpellingParts.{connection_section, property_section};
ghost use Rattle.aadl_tree.specs.Names.{reference_parts};
ghost use Rattle.aadl_tree.specs.Values.{associations_parts};
ghost use Rattle.aadl_tree.specs.Declarations.{category_mark, direction_mark, section_parts, feature_parts};
ghost use Rattle.aadl_tree.specs.Declarations.{subcomponent_parts, connection_parts, end_parts};
ghost use Rattle.aadl_tree.specs.proof.NameViews.{reference_view};
ghost use Rattle.aadl_tree.specs.proof.ValueViews.{associations_view};
ghost use Rattle.aadl_tree.specs.proof.DeclarationViews.{feature_view, subcomponent_view, connection_view, end_view};
ghost use Rattle.aadl_tree.specs.proof.PlaceMaps.{kept_place};
ghost use Rattle.aadl_grammar.specs.proof.GrammarSymbols as s;
ghost use Rattle.aadl_grammar.specs.proof.ParseTable.{rows};
ghost use Rattle.aadl_grammar.specs.proof.ParserAnswers.{here, AtMark, MissAll, Parses, AnyRoom, Room};

use aadl_grammar::{
    ParseFault, Parsed, Reader, association, dot_identifier, identifier, properties, reference,
    section,
};
use aadl_tree::{
    Association, Category, Connection, ConnectionEnd, Direction, Feature, Mark, Reference,
    Subcomponent,
};

/// `"system" | "process" | "thread"`
pub fn category(reader: &Reader<'_>, at: usize) -> Option<(Category, usize)>
    ensures { MatchOption result (MissAll (rows s.category) (here reader.now at))
        (λ x. AtMark (category_mark x.0) (here reader.now at) (here reader.now x.1)) }
{
    if let Some(next) = reader.take(at, Mark::System) {
        return Some((Category::System, next));
    }
    if let Some(next) = reader.take(at, Mark::Process) {
        return Some((Category::Process, next));
    }
    if let Some(next) = reader.take(at, Mark::Thread) {
        return Some((Category::Thread, next));
    }
    None
}

/// A category. Errors: `Syntax` if there is none.
fn expect_category(reader: &Reader<'_>, at: usize) -> Parsed<Category>
    ensures { Parses reader.now AnyRoom (s.category ∷ []) (λ x. plain (category_mark x) ∷ []) at result }
{
    match category(reader, at) {
        Some(found) => Ok(found),
        None => Err(ParseFault::Syntax {
            at: reader.place(at),
        }),
    }
}

/// `"in" | "out"`
fn direction(reader: &Reader<'_>, at: usize) -> Parsed<Direction>
    ensures { Parses reader.now AnyRoom (s.direction ∷ []) (λ x. plain (direction_mark x) ∷ []) at result }
{
    if let Some(next) = reader.take(at, Mark::In) {
        return Ok((Direction::In, next));
    }
    match reader.take(at, Mark::Out) {
        Some(next) => Ok((Direction::Out, next)),
        None => Err(ParseFault::Syntax {
            at: reader.place(at),
        }),
    }
}

/// `[ reference ]`
fn data_type(reader: &Reader<'_>, at: usize) -> Parsed<Option<Reference>>
    ensures { Parses reader.now AnyRoom (s.data_type ∷ [])
        (λ x. parts_if reference_parts (option_map (reference_view kept_place) x)) at result }
{
    if !reader.is_word(at) {
        return Ok((None, at));
    }
    let (found, end) = reference(reader, at)?;
    Ok((Some(found), end))
}

/// `id ":" ( "in" | "out" ) "data" "port" [ reference ] [ properties ] ";"`
fn feature(reader: &Reader<'_>, at: usize, room: usize) -> Parsed<Feature>
    ensures { Parses reader.now (Room room) (s.feature ∷ [])
        (λ x. feature_parts (feature_view kept_place x)) at result }
{
    let (name, next) = identifier(reader, at)?;
    let colon = reader.expect(next, Mark::Colon)?;
    let (direction, next) = direction(reader, colon)?;
    let data = reader.expect(next, Mark::Data)?;
    let port = reader.expect(data, Mark::Port)?;
    let (data_type, next) = data_type(reader, port)?;
    let (properties, next) = properties(reader, next, room)?;
    let end = reader.expect(next, Mark::Semicolon)?;
    let feature = Feature {
        name,
        direction,
        data_type,
        properties,
    };
    Ok((feature, end))
}

/// `[ "features" ( "none" ";" | feature { feature } ) ]`
pub fn features(reader: &Reader<'_>, at: usize, room: usize) -> Parsed<Vec<Feature>>
    ensures { Parses reader.now (Room room) (s.features ∷ [])
        (λ x. section_parts feature_section (flat_map feature_parts (map (feature_view kept_place) x.items))) at
        result }
{
    section(reader, at, Mark::Features, |at| feature(reader, at, room))
}

/// `id ":" category reference [ properties ] ";"`
fn subcomponent(reader: &Reader<'_>, at: usize, room: usize) -> Parsed<Subcomponent>
    ensures { Parses reader.now (Room room) (s.subcomponent ∷ [])
        (λ x. subcomponent_parts (subcomponent_view kept_place x)) at result }
{
    let (name, next) = identifier(reader, at)?;
    let colon = reader.expect(next, Mark::Colon)?;
    let (category, next) = expect_category(reader, colon)?;
    let (classifier, next) = reference(reader, next)?;
    let (properties, next) = properties(reader, next, room)?;
    let end = reader.expect(next, Mark::Semicolon)?;
    let subcomponent = Subcomponent {
        name,
        category,
        classifier,
        properties,
    };
    Ok((subcomponent, end))
}

/// `[ "subcomponents" ( "none" ";" | subcomponent { subcomponent } ) ]`
pub fn subcomponents(reader: &Reader<'_>, at: usize, room: usize) -> Parsed<Vec<Subcomponent>>
    ensures { Parses reader.now (Room room) (s.subcomponents ∷ [])
        (λ x. section_parts subcomponent_section
        (flat_map subcomponent_parts (map (subcomponent_view kept_place) x.items))) at result }
{
    section(
        reader,
        at,
        Mark::Subcomponents,
        |at| subcomponent(reader, at, room),
    )
}

/// `id [ "." id ]`
fn connection_end(reader: &Reader<'_>, at: usize) -> Parsed<ConnectionEnd>
    ensures { Parses reader.now AnyRoom (s.connection_end ∷ []) (λ x. end_parts (end_view kept_place x)) at result }
{
    let (first, next) = identifier(reader, at)?;
    let (second, end) = dot_identifier(reader, next)?;
    Ok((ConnectionEnd { first, second }, end))
}

/// `id ":" "port" end "->" end [ properties ] ";"`
fn connection(reader: &Reader<'_>, at: usize, room: usize) -> Parsed<Connection>
    ensures { Parses reader.now (Room room) (s.connection ∷ [])
        (λ x. connection_parts (connection_view kept_place x)) at result }
{
    let (name, next) = identifier(reader, at)?;
    let colon = reader.expect(next, Mark::Colon)?;
    let port = reader.expect(colon, Mark::Port)?;
    let (source, next) = connection_end(reader, port)?;
    let arrow = reader.expect(next, Mark::Arrow)?;
    let (target, next) = connection_end(reader, arrow)?;
    let (properties, next) = properties(reader, next, room)?;
    let end = reader.expect(next, Mark::Semicolon)?;
    let connection = Connection {
        name,
        source,
        target,
        properties,
    };
    Ok((connection, end))
}

/// `[ "connections" ( "none" ";" | connection { connection } ) ]`
pub fn connections(reader: &Reader<'_>, at: usize, room: usize) -> Parsed<Vec<Connection>>
    ensures { Parses reader.now (Room room) (s.connections ∷ [])
        (λ x. section_parts connection_section (flat_map connection_parts (map (connection_view kept_place) x.items)))
        at result }
{
    section(
        reader,
        at,
        Mark::Connections,
        |at| connection(reader, at, room),
    )
}

/// `[ "properties" ( "none" ";" | property { property } ) ]`
pub fn own_properties(reader: &Reader<'_>, at: usize, room: usize) -> Parsed<Vec<Association>>
    ensures { Parses reader.now (Room room) (s.own_properties ∷ [])
        (λ x. section_parts property_section (associations_parts (associations_view kept_place x.items))) at result }
{
    section(
        reader,
        at,
        Mark::Properties,
        |at| association(reader, at, room),
    )
}
