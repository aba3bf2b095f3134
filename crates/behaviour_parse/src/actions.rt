//! Parses actions: assignments, sends, choices and loops, and blocks of them.
ghost use Rattle.std.specs.Prelude.{◌≡◌, [], ◌∷◌, ◌++◌, MatchBool, option_map};
ghost use Rattle.aadl_tree.specs.declared.mark.Mark.TheVariants as k;
ghost use Rattle.aadl_tree.specs.Actions.{loop, action_parts, actions_parts, elsifs_parts, otherwise_parts};
ghost use Rattle.aadl_tree.specs.Actions.{block_parts, test_parts, bound_parts};
ghost use Rattle.aadl_tree.specs.proof.NameViews.{identifier_view, reference_view};
ghost use Rattle.aadl_tree.specs.proof.ExpressionViews.{expression_view};
ghost use Rattle.aadl_tree.specs.proof.ActionViews.{action_view, actions_view, elsifs_view, otherwise_of, block_view};
ghost use Rattle.aadl_tree.specs.proof.ActionViews.{loop_view};
ghost use Rattle.aadl_tree.specs.proof.PlaceMaps.{kept_place};
ghost use Rattle.aadl_grammar.specs.proof.GrammarSymbols as s;
ghost use Rattle.aadl_grammar.specs.proof.ParseTable.{rows, on};
ghost use Rattle.aadl_grammar.specs.proof.ParserAnswers.{here, MissAll, Begins, Parses, AnyRoom, Room};
ghost use Rattle.behaviour_parse.specs.proof.LoopAndChoiceParts.{head_parts, choice_parts};

use crate::expressions::expression;
use aadl_grammar::{ParseFault, Parsed, Reader, identifier, reference};
use aadl_tree::{
    Action, Actions, Block, Bound, Choice, Elsif, Expression, Identifier, Loop, Mark, Reference,
    push_compact,
};

/// `"(" expression ")"`
fn test(reader: &Reader<'_>, at: usize, room: usize) -> Parsed<Expression>
    ensures { Parses reader.now (Room room) (s.test ∷ []) (λ x. test_parts (expression_view kept_place x)) at result }
{
    let Some(next) = reader.take(at, Mark::ParenOpen) else {
        return Err(ParseFault::Syntax {
            at: reader.place(at),
        });
    };
    let inner = reader.deeper(at, room)?;
    let (found, next) = expression(reader, next, inner)?;
    let end = reader.expect(next, Mark::ParenClose)?;
    Ok((found, end))
}

/// `[ "-" ] whole`
fn bound(reader: &Reader<'_>, at: usize) -> Parsed<Bound>
    ensures { Parses reader.now AnyRoom (s.bound ∷ []) (λ x. bound_parts x) at result }
{
    let (negative, next) = reader.has(at, Mark::Minus);
    match reader.whole(next) {
        Some((value, end)) => Ok((Bound { negative, value }, end)),
        None => Err(ParseFault::Syntax {
            at: reader.place(next),
        }),
    }
}

/// The content of the parentheses of a loop.
#[derive(Drop)]
struct LoopHead {
    variable: Identifier,
    data_type: Reference,
    low: Bound,
    high: Bound,
}

/// `"(" id ":" reference "in" bound ".." bound ")"`
fn loop_head(reader: &Reader<'_>, at: usize, room: usize) -> Parsed<LoopHead>
    ensures { Parses reader.now (Room room) (s.loop_head ∷ []) (λ x. head_parts x) at result }
{
    let Some(next) = reader.take(at, Mark::ParenOpen) else {
        return Err(ParseFault::Syntax {
            at: reader.place(at),
        });
    };
    let _inner = reader.deeper(at, room)?;
    let (variable, next) = identifier(reader, next)?;
    let colon = reader.expect(next, Mark::Colon)?;
    let (data_type, next) = reference(reader, colon)?;
    let range = reader.expect(next, Mark::In)?;
    let (low, next) = bound(reader, range)?;
    let dots = reader.expect(next, Mark::Range)?;
    let (high, next) = bound(reader, dots)?;
    let end = reader.expect(next, Mark::ParenClose)?;
    let head = LoopHead {
        variable,
        data_type,
        low,
        high,
    };
    Ok((head, end))
}

/// Returns whether an action begins at this index.
fn begins_action(reader: &Reader<'_>, at: usize) -> bool
    ensures { MatchBool result (Begins s.actions (here reader.now at)) (MissAll (rows s.actions) (here reader.now at)) }
{
    if reader.is_word(at) {
        return true;
    }
    if let Some(_next) = reader.take(at, Mark::If) {
        return true;
    }
    match reader.take(at, Mark::For) {
        Some(_next) => true,
        None => false,
    }
}

/// Returns the loop with this head and body.
fn turns(head: LoopHead, at: usize, body: Block) -> Loop
    ensures { loop_view kept_place result
        ≡ loop at (identifier_view kept_place head.variable) (reference_view kept_place head.data_type) head.low
        head.high (block_view kept_place body) }
{
    let LoopHead {
        variable,
        data_type,
        low,
        high,
    } = head;
    Loop {
        at,
        variable,
        data_type,
        low,
        high,
        body,
    }
}

/// `id ":=" expression | id "!" "(" expression ")"`
fn plain_action(reader: &Reader<'_>, at: usize, room: usize) -> Parsed<Action>
    requires { MissAll (on k.If [] ∷ on k.For [] ∷ []) (here reader.now at) }
    ensures { Parses reader.now (Room room) (s.action ∷ []) (λ x. action_parts (action_view kept_place x)) at result }
{
    let Some((target, next)) = reader.word(at)? else {
        return Err(ParseFault::Syntax {
            at: reader.place(at),
        });
    };
    if let Some(next) = reader.take(next, Mark::Assign) {
        let (value, end) = expression(reader, next, room)?;
        return Ok((Action::Assign { target, value }, end));
    }
    let Some(behind) = reader.take(next, Mark::Bang) else {
        return Err(ParseFault::Syntax {
            at: reader.place(next),
        });
    };
    let (value, end) = test(reader, behind, room)?;
    let send = Action::Send {
        port: target,
        value,
    };
    Ok((send, end))
}

/// `id ":=" expression | id "!" "(" expression ")" | if | for`
#[cycle(action)]
fn action(reader: &Reader<'_>, at: usize, room: usize) -> Parsed<Action>
    ensures { Parses reader.now (Room room) (s.action ∷ []) (λ x. action_parts (action_view kept_place x)) at result }
{
    if let Some(next) = reader.take(at, Mark::If) {
        let inner = reader.deeper(at, room)?;
        let (choice, end) = choice(reader, next, inner)?;
        let boxed = Box::new(reader.alloc, choice)?;
        return Ok((Action::If(boxed), end));
    }
    if let Some(next) = reader.take(at, Mark::For) {
        let ((head, body), end) = repetition(reader, next, room)?;
        let boxed = Box::new(reader.alloc, turns(head, reader.place(at), body))?;
        return Ok((Action::For(boxed), end));
    }
    plain_action(reader, at, room)
}

/// Parses a loop after its `for`.
#[cycle(action)]
fn repetition(reader: &Reader<'_>, at: usize, room: usize) -> Parsed<(LoopHead, Block)>
    ensures { Parses reader.now (Room room) (s.loop_head ∷ s.block ∷ [])
        (λ x. head_parts x.0 ++ block_parts (block_view kept_place x.1)) at result }
{
    let (head, next) = loop_head(reader, at, room)?;
    let (body, end) = block(reader, next, room)?;
    Ok(((head, body), end))
}

/// `"(" expression ")" actions { elsif } [ "else" actions ] "end" "if"`
#[cycle(action)]
fn choice(reader: &Reader<'_>, at: usize, room: usize) -> Parsed<Choice>
    ensures { Parses reader.now (Room room) (s.test ∷ s.actions ∷ s.elsifs ∷ s.otherwise ∷ s.end_if ∷ [])
        (λ x. choice_parts x) at result }
{
    let (test, next) = test(reader, at, room)?;
    let (actions, next) = actions(reader, next, room)?;
    let (elsifs, next) = elsifs(reader, next, room)?;
    let (otherwise, next) = otherwise(reader, next, room)?;
    let close = reader.expect(next, Mark::End)?;
    let end = reader.expect(close, Mark::If)?;
    let choice = Choice {
        test,
        actions,
        elsifs,
        otherwise,
    };
    Ok((choice, end))
}

/// `{ "elsif" "(" expression ")" actions }`
#[cycle(action)]
fn elsifs(reader: &Reader<'_>, at: usize, room: usize) -> Parsed<Vec<Elsif>>
    ensures { Parses reader.now (Room room) (s.elsifs ∷ [])
        (λ x. elsifs_parts (elsifs_view kept_place x.items)) at result }
{
    let mut found = Vec::new(reader.alloc);
    let mut rest = at;
    while let Some(behind) = reader.take(rest, Mark::Elsif) {
        let (test, behind) = test(reader, behind, room)?;
        let (actions, behind) = actions(reader, behind, room)?;
        push_compact(&mut found, Elsif { test, actions })?;
        rest = behind;
    }
    Ok((found, rest))
}

/// `[ "else" actions ]`
#[cycle(action)]
fn otherwise(reader: &Reader<'_>, at: usize, room: usize) -> Parsed<Option<Box<Actions>>>
    ensures { Parses reader.now (Room room) (s.otherwise ∷ [])
        (λ x. otherwise_parts (otherwise_of (option_map (λ b. actions_view kept_place b.value) x))) at result }
{
    let Some(next) = reader.take(at, Mark::Else) else {
        return Ok((None, at));
    };
    let (found, end) = actions(reader, next, room)?;
    let boxed = Box::new(reader.alloc, found)?;
    Ok((Some(boxed), end))
}

/// `action { ";" action } [ ";" ]`
#[cycle(action)]
fn actions(reader: &Reader<'_>, at: usize, room: usize) -> Parsed<Actions>
    ensures { Parses reader.now (Room room) (s.actions ∷ [])
        (λ x. actions_parts (actions_view kept_place x)) at result }
{
    let (first, mut rest) = action(reader, at, room)?;
    let mut others = Vec::new(reader.alloc);
    while let Some(behind) = reader.take(rest, Mark::Semicolon) {
        if !begins_action(reader, behind) {
            let actions = Actions {
                first,
                rest: others,
            };
            return Ok((actions, behind));
        }
        let (next, behind) = action(reader, behind, room)?;
        push_compact(&mut others, next)?;
        rest = behind;
    }
    let actions = Actions {
        first,
        rest: others,
    };
    Ok((actions, rest))
}

/// `"{" [ actions ] "}"`
#[cycle(action)]
pub fn block(reader: &Reader<'_>, at: usize, room: usize) -> Parsed<Block>
    ensures { Parses reader.now (Room room) (s.block ∷ []) (λ x. block_parts (block_view kept_place x)) at result }
{
    let Some(next) = reader.take(at, Mark::BraceOpen) else {
        return Err(ParseFault::Syntax {
            at: reader.place(at),
        });
    };
    let inner = reader.deeper(at, room)?;
    if let Some(end) = reader.take(next, Mark::BraceClose) {
        return Ok((Block { actions: None }, end));
    }
    let (found, next) = actions(reader, next, inner)?;
    let end = reader.expect(next, Mark::BraceClose)?;
    let boxed = Box::new(reader.alloc, found)?;
    let block = Block {
        actions: Some(boxed),
    };
    Ok((block, end))
}
