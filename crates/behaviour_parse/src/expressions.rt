//! Parses expressions, from operands up to relations joined by logical operators.
ghost use Rattle.std.specs.Prelude.{[], ◌∷◌, ◌++◌, MatchOption};
ghost use Rattle.aadl_tree.specs.Expressions.{primary_parts, factor_parts, term_parts, terms_parts, sum_parts};
ghost use Rattle.aadl_tree.specs.Expressions.{relation_parts, expression_parts, multiply_mark, relation_mark};
ghost use Rattle.aadl_tree.specs.Expressions.{fresh_parts};
ghost use Rattle.aadl_tree.specs.proof.ExpressionViews.{primary_view, factor_view, term_view, terms_view, sum_view};
ghost use Rattle.aadl_tree.specs.proof.ExpressionViews.{relation_view, expression_view};
ghost use Rattle.aadl_tree.specs.proof.PlaceMaps.{kept_place};
ghost use Rattle.aadl_grammar.specs.proof.GrammarSymbols as s;
ghost use Rattle.aadl_grammar.specs.proof.ParseTable.{rows};
ghost use Rattle.aadl_grammar.specs.proof.ParserAnswers.{here, AtMark, MissAll, Parses, AnyRoom, Room};
ghost use Rattle.behaviour_parse.specs.proof.LogicOperators.{Joins};

use aadl_grammar::{ParseFault, Parsed, Reader, narrow};
use aadl_tree::{
    Expression, Factor, LeadingSign, LogicOperator, Mark, MultiplyOperator, Primary, Relation,
    RelationOperator, Sign, Sum, Term, push_compact,
};

/// `[ "'" "fresh" ]`
fn fresh(reader: &Reader<'_>, at: usize) -> Parsed<bool>
    ensures { Parses reader.now AnyRoom (s.fresh ∷ []) (λ x. fresh_parts x) at result }
{
    let Some(next) = reader.take(at, Mark::Tick) else {
        return Ok((false, at));
    };
    let end = reader.expect(next, Mark::Fresh)?;
    Ok((true, end))
}

/// `whole | "true" | "false" | id [ "'" "fresh" ] | "(" expression ")"`
#[cycle(expression)]
fn primary(reader: &Reader<'_>, at: usize, room: usize) -> Parsed<Primary>
    ensures { Parses reader.now (Room room) (s.primary ∷ [])
        (λ x. primary_parts (primary_view kept_place x)) at result }
{
    let place = reader.place(at);
    if let Some(next) = reader.take(at, Mark::ParenOpen) {
        let deeper = reader.deeper(at, room)?;
        let (inner, next) = expression(reader, next, deeper)?;
        let end = reader.expect(next, Mark::ParenClose)?;
        let inner = Box::new(reader.alloc, inner)?;
        return Ok((Primary::Group { at: place, inner }, end));
    }
    if let Some(next) = reader.take(at, Mark::True) {
        let truth = Primary::Truth {
            at: place,
            value: true,
        };
        return Ok((truth, next));
    }
    if let Some(next) = reader.take(at, Mark::False) {
        let truth = Primary::Truth {
            at: place,
            value: false,
        };
        return Ok((truth, next));
    }
    if let Some((value, next)) = reader.whole(at) {
        return Ok((Primary::Whole { at: place, value }, next));
    }
    let Some((name, next)) = reader.word(at)? else {
        return Err(ParseFault::Syntax { at: place });
    };
    let (fresh, end) = fresh(reader, next)?;
    Ok((Primary::Named { name, fresh }, end))
}

/// `"abs" primary | "not" primary | primary`
#[cycle(expression)]
fn factor(reader: &Reader<'_>, at: usize, room: usize) -> Parsed<Factor>
    ensures { Parses reader.now (Room room) (s.factor ∷ []) (λ x. factor_parts (factor_view kept_place x)) at result }
{
    let place = reader.place(at);
    if let Some(next) = reader.take(at, Mark::Abs) {
        let (operand, end) = primary(reader, next, room)?;
        let boxed = Box::new(reader.alloc, operand)?;
        let factor = Factor::Abs {
            at: place,
            operand: boxed,
        };
        return Ok((factor, end));
    }
    if let Some(next) = reader.take(at, Mark::Not) {
        let (operand, end) = primary(reader, next, room)?;
        let boxed = Box::new(reader.alloc, operand)?;
        let factor = Factor::Not {
            at: place,
            operand: boxed,
        };
        return Ok((factor, end));
    }
    let (operand, end) = primary(reader, at, room)?;
    Ok((Factor::Plain(operand), end))
}

/// `"*" | "/" | "mod" | "rem"`
fn multiplying(reader: &Reader<'_>, at: usize) -> Option<(MultiplyOperator, usize)>
    ensures { MatchOption result (MissAll (rows s.factors) (here reader.now at))
        (λ x. AtMark (multiply_mark x.0) (here reader.now at) (here reader.now x.1)) }
{
    if let Some(next) = reader.take(at, Mark::Star) {
        return Some((MultiplyOperator::Times, next));
    }
    if let Some(next) = reader.take(at, Mark::Slash) {
        return Some((MultiplyOperator::Divide, next));
    }
    if let Some(next) = reader.take(at, Mark::Mod) {
        return Some((MultiplyOperator::Mod, next));
    }
    if let Some(next) = reader.take(at, Mark::Rem) {
        return Some((MultiplyOperator::Rem, next));
    }
    None
}

/// `factor { ( "*" | "/" | "mod" | "rem" ) factor }`
#[cycle(expression)]
fn term(reader: &Reader<'_>, at: usize, room: usize) -> Parsed<Term>
    ensures { Parses reader.now (Room room) (s.term ∷ []) (λ x. term_parts (term_view kept_place x)) at result }
{
    let (first, mut rest) = factor(reader, at, room)?;
    let mut others = Vec::new(reader.alloc);
    while let Some((operator, behind)) = multiplying(reader, rest) {
        let (operand, behind) = factor(reader, behind, room)?;
        push_compact(&mut others, (operator, operand))?;
        rest = behind;
    }
    let term = Term {
        first,
        rest: others,
    };
    Ok((term, rest))
}

/// `term { ( "+" | "-" ) term }`
#[cycle(expression)]
fn terms(reader: &Reader<'_>, at: usize, room: usize) -> Parsed<(Term, Vec<(Sign, Term)>)>
    ensures { Parses reader.now (Room room) (s.term ∷ s.terms ∷ [])
        (λ x. term_parts (term_view kept_place x.0) ++ terms_parts (terms_view kept_place x.1.items)) at result }
{
    let (first, mut rest) = term(reader, at, room)?;
    let mut others = Vec::new(reader.alloc);
    while let Some((sign, behind)) = reader.sign(rest) {
        let (next, behind) = term(reader, behind, room)?;
        push_compact(&mut others, (sign, next))?;
        rest = behind;
    }
    Ok(((first, others), rest))
}

/// `[ "+" | "-" ] term { ( "+" | "-" ) term }`
#[cycle(expression)]
fn sum(reader: &Reader<'_>, at: usize, room: usize) -> Parsed<Sum>
    ensures { Parses reader.now (Room room) (s.sum ∷ []) (λ x. sum_parts (sum_view kept_place x)) at result }
{
    let place = reader.place(at);
    let Some((sign, next)) = reader.sign(at) else {
        let ((first, rest), end) = terms(reader, at, room)?;
        let sum = Sum {
            sign: None,
            first,
            rest,
        };
        return Ok((sum, end));
    };
    let at = narrow(place)?;
    let ((first, rest), end) = terms(reader, next, room)?;
    let sum = Sum {
        sign: Some(LeadingSign { at, sign }),
        first,
        rest,
    };
    Ok((sum, end))
}

/// `"=" | "!=" | "<" | "<=" | ">" | ">="`
fn comparing(reader: &Reader<'_>, at: usize) -> Option<(RelationOperator, usize)>
    ensures { MatchOption result (MissAll (rows s.compared) (here reader.now at))
        (λ x. AtMark (relation_mark x.0) (here reader.now at) (here reader.now x.1)) }
{
    if let Some(next) = reader.take(at, Mark::Equal) {
        return Some((RelationOperator::Equal, next));
    }
    if let Some(next) = reader.take(at, Mark::NotEqual) {
        return Some((RelationOperator::NotEqual, next));
    }
    if let Some(next) = reader.take(at, Mark::Less) {
        return Some((RelationOperator::Less, next));
    }
    if let Some(next) = reader.take(at, Mark::LessOrEqual) {
        return Some((RelationOperator::LessOrEqual, next));
    }
    if let Some(next) = reader.take(at, Mark::Greater) {
        return Some((RelationOperator::Greater, next));
    }
    if let Some(next) = reader.take(at, Mark::GreaterOrEqual) {
        return Some((RelationOperator::GreaterOrEqual, next));
    }
    None
}

/// `sum [ ( "=" | "!=" | "<" | "<=" | ">" | ">=" ) sum ]`
#[cycle(expression)]
fn relation(reader: &Reader<'_>, at: usize, room: usize) -> Parsed<Relation>
    ensures { Parses reader.now (Room room) (s.relation ∷ [])
        (λ x. relation_parts (relation_view kept_place x)) at result }
{
    let (left, next) = sum(reader, at, room)?;
    let Some((operator, behind)) = comparing(reader, next) else {
        return Ok((Relation { left, right: None }, next));
    };
    let (right, end) = sum(reader, behind, room)?;
    let other = Box::new(reader.alloc, (operator, right))?;
    let relation = Relation {
        left,
        right: Some(other),
    };
    Ok((relation, end))
}

/// `"and" | "or" | "xor" | "and" "then" | "or" "else"`
fn joining(reader: &Reader<'_>, at: usize) -> Option<(LogicOperator, usize)>
    ensures { MatchOption result (MissAll (rows s.relations) (here reader.now at))
        (λ x. Joins x.0 (here reader.now at) (here reader.now x.1)) }
{
    if let Some(next) = reader.take(at, Mark::And) {
        return match reader.take(next, Mark::Then) {
            Some(end) => Some((LogicOperator::AndThen, end)),
            None => Some((LogicOperator::And, next)),
        };
    }
    if let Some(next) = reader.take(at, Mark::Or) {
        return match reader.take(next, Mark::Else) {
            Some(end) => Some((LogicOperator::OrElse, end)),
            None => Some((LogicOperator::Or, next)),
        };
    }
    if let Some(next) = reader.take(at, Mark::Xor) {
        return Some((LogicOperator::Xor, next));
    }
    None
}

/// `relation { ( "and" | "or" | "xor" | "and" "then" | "or" "else" ) relation }`
#[cycle(expression)]
pub fn expression(reader: &Reader<'_>, at: usize, room: usize) -> Parsed<Expression>
    ensures { Parses reader.now (Room room) (s.expression ∷ [])
        (λ x. expression_parts (expression_view kept_place x)) at result }
{
    let (first, mut rest) = relation(reader, at, room)?;
    let mut others = Vec::new(reader.alloc);
    while let Some((operator, behind)) = joining(reader, rest) {
        let (next, behind) = relation(reader, behind, room)?;
        push_compact(&mut others, (operator, next))?;
        rest = behind;
    }
    let expression = Expression {
        first,
        rest: others,
    };
    Ok((expression, rest))
}
