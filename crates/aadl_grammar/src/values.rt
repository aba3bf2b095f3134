//! Parses properties and their values.
ghost use Rattle.std.specs.Prelude.{[], ◌∷◌, ◌++◌, flat_map, map, option_map};
ghost use Rattle.aadl_tree.specs.declared.mark.Mark.TheVariants as k;
ghost use Rattle.aadl_tree.specs.SpellingParts.{behind, parts_if, plain};
ghost use Rattle.aadl_tree.specs.Names.{identifier_parts, path_parts, reference_parts};
ghost use Rattle.aadl_tree.specs.Values.{figure_parts, quantity_parts, value_parts, values_parts, more_values_parts};
ghost use Rattle.aadl_tree.specs.Values.{association_parts, associations_parts, properties_parts, applies_parts};
ghost use Rattle.aadl_tree.specs.Values.{association_mark};
ghost use Rattle.aadl_tree.specs.proof.NameViews.{path_view, reference_view};
ghost use Rattle.aadl_tree.specs.proof.ValueViews.{figure_view, unit_view, quantity_view, value_view, values_view};
ghost use Rattle.aadl_tree.specs.proof.ValueViews.{association_view, associations_view};
ghost use Rattle.aadl_tree.specs.proof.PlaceMaps.{kept_place};
ghost use Rattle.aadl_grammar.specs.proof.GrammarSymbols as s;
ghost use Rattle.aadl_grammar.specs.proof.ParseTable.{on};
ghost use Rattle.aadl_grammar.specs.proof.ParserAnswers.{here, MissAll, Parses, AnyRoom, Room};

use crate::lists::followers;
use crate::names::{name, path, reference};
use crate::parse_fault::ParseFault;
use crate::parse_input::{Parsed, Reader};
use aadl_tree::{
    Association, AssociationOperator, Identifier, Mark, Number, Path, Quantity, Reference,
    UnsignedNumber, Value,
};

/// `whole | real`
fn figure(reader: &Reader<'_>, at: usize) -> Parsed<UnsignedNumber>
    ensures { Parses reader.now AnyRoom (s.figure ∷ []) (λ x. figure_parts (figure_view x)) at result }
{
    if let Some((value, next)) = reader.whole(at) {
        return Ok((UnsignedNumber::Whole(value), next));
    }
    match reader.real(at)? {
        Some((bytes, next)) => {
            let boxed = Box::new(reader.alloc, bytes)?;
            Ok((UnsignedNumber::Real(boxed), next))
        }
        None => Err(ParseFault::Syntax {
            at: reader.place(at),
        }),
    }
}

/// `[ id ]`
fn unit(reader: &Reader<'_>, at: usize) -> Parsed<Option<Box<Identifier>>>
    ensures { Parses reader.now AnyRoom (s.unit ∷ [])
        (λ x. parts_if identifier_parts (unit_view kept_place x)) at result }
{
    match reader.word(at)? {
        Some((found, next)) => {
            let boxed = Box::new(reader.alloc, found)?;
            Ok((Some(boxed), next))
        }
        None => Ok((None, at)),
    }
}

/// `[ "+" | "-" ] ( whole | real ) [ id ]`
fn quantity(reader: &Reader<'_>, at: usize) -> Parsed<Quantity>
    ensures { Parses reader.now AnyRoom (s.quantity ∷ []) (λ x. quantity_parts (quantity_view kept_place x)) at result }
{
    let Some((sign, next)) = reader.sign(at) else {
        let (figure, next) = figure(reader, at)?;
        let (unit, next) = unit(reader, next)?;
        let number = Number { sign: None, figure };
        return Ok((Quantity { number, unit }, next));
    };
    let (figure, next) = figure(reader, next)?;
    let (unit, next) = unit(reader, next)?;
    let number = Number {
        sign: Some(sign),
        figure,
    };
    Ok((Quantity { number, unit }, next))
}

/// `[ ".." quantity ]`
fn upper(reader: &Reader<'_>, at: usize) -> Parsed<Option<Box<Quantity>>>
    ensures { Parses reader.now AnyRoom (s.upper ∷ [])
        (λ x. parts_if (behind k.Range quantity_parts) (option_map (λ y. quantity_view kept_place y.value) x)) at
        result }
{
    let Some(next) = reader.take(at, Mark::Range) else {
        return Ok((None, at));
    };
    let (found, next) = quantity(reader, next)?;
    let boxed = Box::new(reader.alloc, found)?;
    Ok((Some(boxed), next))
}

/// `"(" path ")"`
fn path_group(reader: &Reader<'_>, at: usize, room: usize) -> Parsed<Path>
    ensures { Parses reader.now (Room room) (s.path_group ∷ [])
        (λ x. plain k.ParenOpen ∷ (path_parts (path_view kept_place x) ++ plain k.ParenClose ∷ [])) at result }
{
    let Some(next) = reader.take(at, Mark::ParenOpen) else {
        return Err(ParseFault::Syntax {
            at: reader.place(at),
        });
    };
    let _inner = reader.deeper(at, room)?;
    let (found, next) = path(reader, next)?;
    let end = reader.expect(next, Mark::ParenClose)?;
    Ok((found, end))
}

/// `"(" reference ")"`
fn reference_group(reader: &Reader<'_>, at: usize, room: usize) -> Parsed<Reference>
    ensures { Parses reader.now (Room room) (s.reference_group ∷ [])
        (λ x. plain k.ParenOpen ∷ (reference_parts (reference_view kept_place x) ++ plain k.ParenClose ∷ [])) at
        result }
{
    let Some(next) = reader.take(at, Mark::ParenOpen) else {
        return Err(ParseFault::Syntax {
            at: reader.place(at),
        });
    };
    let _inner = reader.deeper(at, room)?;
    let (found, next) = reference(reader, next)?;
    let end = reader.expect(next, Mark::ParenClose)?;
    Ok((found, end))
}

/// `"=>" | "+=>"`
fn operator(reader: &Reader<'_>, at: usize) -> Parsed<AssociationOperator>
    ensures { Parses reader.now AnyRoom (s.operator ∷ []) (λ x. plain (association_mark x) ∷ []) at result }
{
    if let Some(next) = reader.take(at, Mark::Becomes) {
        return Ok((AssociationOperator::Becomes, next));
    }
    match reader.take(at, Mark::Appends) {
        Some(next) => Ok((AssociationOperator::Appends, next)),
        None => Err(ParseFault::Syntax {
            at: reader.place(at),
        }),
    }
}

/// `[ "applies" "to" path { "," path } ]`
fn applies(reader: &Reader<'_>, at: usize) -> Parsed<Vec<Path>>
    ensures { Parses reader.now AnyRoom (s.applies ∷ [])
        (λ x. applies_parts (map (path_view kept_place) x.items)) at result }
{
    let Some(next) = reader.take(at, Mark::Applies) else {
        return Ok((Vec::new(reader.alloc), at));
    };
    let start = reader.expect(next, Mark::To)?;
    let (first, next) = path(reader, start)?;
    let mut found = Vec::new(reader.alloc);
    found.push(first)?;
    followers(
        reader,
        next,
        Some(Mark::Comma),
        found,
        |at| path(reader, at),
    )
}

/// `[ value { "," value } ] ")"`
#[cycle(value)]
fn values(reader: &Reader<'_>, at: usize, room: usize) -> Parsed<Vec<Value>>
    ensures { Parses reader.now (Room room) (s.values ∷ s.only k.ParenClose ∷ [])
        (λ x. values_parts (values_view kept_place x.items) ++ plain k.ParenClose ∷ []) at result }
{
    let mut found = Vec::new(reader.alloc);
    if let Some(next) = reader.take(at, Mark::ParenClose) {
        return Ok((found, next));
    }
    let (first, mut rest) = value(reader, at, room)?;
    found.push(first)?;
    while let Some(behind) = reader.take(rest, Mark::Comma) {
        let (next, behind) = value(reader, behind, room)?;
        found.push(next)?;
        rest = behind;
    }
    let end = reader.expect(rest, Mark::ParenClose)?;
    Ok((found, end))
}

/// A value that begins with a bracket or a keyword, or `None` if another kind of value must follow.
#[cycle(value)]
fn value(reader: &Reader<'_>, at: usize, room: usize) -> Parsed<Value>
    ensures { Parses reader.now (Room room) (s.value ∷ []) (λ x. value_parts (value_view kept_place x)) at result }
{
    if let Some(next) = reader.take(at, Mark::ParenOpen) {
        let inner = reader.deeper(at, room)?;
        let (values, end) = values(reader, next, inner)?;
        return Ok((Value::List(values), end));
    }
    if let Some(next) = reader.take(at, Mark::BracketOpen) {
        let inner = reader.deeper(at, room)?;
        let (fields, next) = associations(reader, next, inner)?;
        let end = reader.expect(next, Mark::BracketClose)?;
        return Ok((Value::Record(fields), end));
    }
    if let Some(next) = reader.take(at, Mark::Reference) {
        let (path, end) = path_group(reader, next, room)?;
        let boxed = Box::new(reader.alloc, path)?;
        return Ok((Value::Reference(boxed), end));
    }
    if let Some(next) = reader.take(at, Mark::Classifier) {
        let (classifier, end) = reference_group(reader, next, room)?;
        let boxed = Box::new(reader.alloc, classifier)?;
        return Ok((Value::Classifier(boxed), end));
    }
    plain_value(reader, at)
}

/// A string, a name, a number with an optional unit, or a range of two such numbers.
fn plain_value(reader: &Reader<'_>, at: usize) -> Parsed<Value>
    requires { MissAll (on k.ParenOpen [] ∷ on k.BracketOpen [] ∷ on k.Reference [] ∷ on k.Classifier [] ∷ [])
        (here reader.now at) }
    ensures { Parses reader.now AnyRoom (s.value ∷ []) (λ x. value_parts (value_view kept_place x)) at result }
{
    if let Some((text, next)) = reader.quoted(at)? {
        return Ok((Value::Text(text), next));
    }
    if reader.is_word(at) {
        let (named, next) = reference(reader, at)?;
        let boxed = Box::new(reader.alloc, named)?;
        return Ok((Value::Named(boxed), next));
    }
    let (low, next) = quantity(reader, at)?;
    let (high, next) = upper(reader, next)?;
    Ok((Value::Number { low, high }, next))
}

/// `name ( "=>" | "+=>" ) [ "constant" ] value [ applies ] ";"`
#[cycle(value)]
pub fn association(reader: &Reader<'_>, at: usize, room: usize) -> Parsed<Association>
    ensures { Parses reader.now (Room room) (s.association ∷ [])
        (λ x. association_parts (association_view kept_place x)) at result }
{
    let (name, next) = name(reader, at)?;
    let (operator, next) = operator(reader, next)?;
    let (constant, next) = reader.has(next, Mark::Constant);
    let (value, next) = value(reader, next, room)?;
    let (applies_to, next) = applies(reader, next)?;
    let end = reader.expect(next, Mark::Semicolon)?;
    let association = Association {
        name,
        operator,
        constant,
        value,
        applies_to,
    };
    Ok((association, end))
}

/// `{ property }`
#[cycle(value)]
fn associations(reader: &Reader<'_>, at: usize, room: usize) -> Parsed<Vec<Association>>
    ensures { Parses reader.now (Room room) (s.associations ∷ [])
        (λ x. associations_parts (associations_view kept_place x.items)) at result }
{
    let mut found = Vec::with_capacity(reader.alloc, 1)?;
    let mut rest = at;
    while reader.is_word(rest) {
        let (next, behind) = association(reader, rest, room)?;
        found.push(next)?;
        rest = behind;
    }
    found.shrink_to_fit();
    Ok((found, rest))
}

/// `[ "{" property { property } "}" ]`
pub fn properties(reader: &Reader<'_>, at: usize, room: usize) -> Parsed<Vec<Association>>
    ensures { Parses reader.now (Room room) (s.properties ∷ [])
        (λ x. properties_parts (associations_view kept_place x.items)) at result }
{
    let Some(next) = reader.take(at, Mark::BraceOpen) else {
        return Ok((Vec::new(reader.alloc), at));
    };
    let inner = reader.deeper(at, room)?;
    if !reader.is_word(next) {
        return Err(ParseFault::Syntax {
            at: reader.place(next),
        });
    }
    let (found, next) = associations(reader, next, inner)?;
    let end = reader.expect(next, Mark::BraceClose)?;
    Ok((found, end))
}
