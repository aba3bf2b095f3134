//! Parses a behaviour annex: its variables, states and transitions.
ghost use Rattle.std.specs.Prelude.{◌≡◌, [], ◌∷◌, ◌++◌, map, option_map};
ghost use Rattle.aadl_tree.specs.declared.mark.Mark.TheVariants as k;
ghost use Rattle.aadl_tree.specs.SpellingParts.{plain, behind, parts_if};
ghost use Rattle.aadl_tree.specs.Names.{identifier_parts};
ghost use Rattle.aadl_tree.specs.Actions.{block_parts};
ghost use Rattle.aadl_tree.specs.Annexes.{variable_parts, state_parts, guard_parts, label_parts, transition_parts};
ghost use Rattle.aadl_tree.specs.Annexes.{declared_parts, annex_tree_parts};
ghost use Rattle.aadl_tree.specs.proof.NameViews.{identifier_view};
ghost use Rattle.aadl_tree.specs.proof.ActionViews.{block_view};
ghost use Rattle.aadl_tree.specs.proof.AnnexViews.{variable_view, state_view, guard_view, transition_view};
ghost use Rattle.aadl_tree.specs.proof.AnnexViews.{annex_tree_view};
ghost use Rattle.aadl_tree.specs.proof.PlaceMaps.{kept_place};
ghost use Rattle.aadl_grammar.specs.proof.GrammarSymbols as s;
ghost use Rattle.aadl_grammar.specs.proof.StackMachine.{annex_body};
ghost use Rattle.aadl_grammar.specs.proof.ParserAnswers.{Parses, AnyRoom, Room};

use crate::actions::block;
use crate::expressions::expression;
use aadl_grammar::{
    ParseFault, Parsed, Reader, followers, identifier, identifiers, properties, reference,
};
use aadl_tree::{
    AnnexTree, Block, Guard, Identifier, Mark, StateDeclaration, Transition, VariableDeclaration,
};

/// `id { "," id } ":" reference [ properties ] ";"`
fn variable(reader: &Reader<'_>, at: usize, room: usize) -> Parsed<VariableDeclaration>
    ensures { Parses reader.now (Room room) (s.variable ∷ [])
        (λ x. variable_parts (variable_view kept_place x)) at result }
{
    let (names, next) = identifiers(reader, at)?;
    let colon = reader.expect(next, Mark::Colon)?;
    let (data_type, next) = reference(reader, colon)?;
    let (properties, next) = properties(reader, next, room)?;
    let end = reader.expect(next, Mark::Semicolon)?;
    let variable = VariableDeclaration {
        names,
        data_type,
        properties,
    };
    Ok((variable, end))
}

/// `[ "variables" { variable } ]`
fn variables(
    reader: &Reader<'_>,
    at: usize,
    room: usize,
) -> Parsed<Option<Vec<VariableDeclaration>>>
    ensures { Parses reader.now (Room room) (s.variables ∷ [])
        (λ x. parts_if (declared_parts k.Variables variable_parts)
        (option_map (λ xs. map (variable_view kept_place) xs.items) x)) at result }
{
    let Some(next) = reader.take(at, Mark::Variables) else {
        return Ok((None, at));
    };
    let none = Vec::new(reader.alloc);
    let (found, end) = followers(reader, next, None, none, |at| variable(reader, at, room))?;
    Ok((Some(found), end))
}

/// `id { "," id } ":" [ "initial" ] [ "complete" ] "state" ";"`
fn state(reader: &Reader<'_>, at: usize) -> Parsed<StateDeclaration>
    ensures { Parses reader.now AnyRoom (s.state ∷ []) (λ x. state_parts (state_view kept_place x)) at result }
{
    let (names, next) = identifiers(reader, at)?;
    let colon = reader.expect(next, Mark::Colon)?;
    let (initial, next) = reader.has(colon, Mark::Initial);
    let (complete, next) = reader.has(next, Mark::Complete);
    let keyword = reader.expect(next, Mark::State)?;
    let end = reader.expect(keyword, Mark::Semicolon)?;
    let state = StateDeclaration {
        names,
        initial,
        complete,
    };
    Ok((state, end))
}

/// `[ "states" { state } ]`
fn states(reader: &Reader<'_>, at: usize) -> Parsed<Option<Vec<StateDeclaration>>>
    ensures { Parses reader.now AnyRoom (s.states ∷ [])
        (λ x. parts_if (declared_parts k.States state_parts)
        (option_map (λ xs. map (state_view kept_place) xs.items) x)) at result }
{
    let Some(next) = reader.take(at, Mark::States) else {
        return Ok((None, at));
    };
    let none = Vec::new(reader.alloc);
    let (found, end) = followers(reader, next, None, none, |at| state(reader, at))?;
    Ok((Some(found), end))
}

/// `[ guard ] "]->"`
fn guard(reader: &Reader<'_>, at: usize, room: usize) -> Parsed<Option<Guard>>
    ensures { Parses reader.now (Room room) (s.guard ∷ s.only k.GuardClose ∷ [])
        (λ x. parts_if guard_parts (option_map (guard_view kept_place) x) ++ plain k.GuardClose ∷ []) at result }
{
    if let Some(end) = reader.take(at, Mark::GuardClose) {
        return Ok((None, end));
    }
    if let Some(next) = reader.take(at, Mark::On) {
        let dispatch = reader.expect(next, Mark::Dispatch)?;
        let end = reader.expect(dispatch, Mark::GuardClose)?;
        return Ok((Some(Guard::Dispatch), end));
    }
    if let Some(next) = reader.take(at, Mark::Otherwise) {
        let end = reader.expect(next, Mark::GuardClose)?;
        return Ok((Some(Guard::Otherwise), end));
    }
    let (found, next) = expression(reader, at, room)?;
    let end = reader.expect(next, Mark::GuardClose)?;
    Ok((Some(Guard::When(found)), end))
}

/// `"-[" [ guard ] "]->"`
fn guarded(reader: &Reader<'_>, at: usize, room: usize) -> Parsed<Option<Guard>>
    ensures { Parses reader.now (Room room) (s.guarded ∷ [])
        (λ x. plain k.GuardOpen ∷ (parts_if guard_parts (option_map (guard_view kept_place) x) ++ plain k.GuardClose
        ∷ [])) at result }
{
    let Some(next) = reader.take(at, Mark::GuardOpen) else {
        return Err(ParseFault::Syntax {
            at: reader.place(at),
        });
    };
    let inner = reader.deeper(at, room)?;
    let (found, end) = guard(reader, next, inner)?;
    Ok((found, end))
}

/// `[ block ]`
fn effect(reader: &Reader<'_>, at: usize, room: usize) -> Parsed<Option<Block>>
    ensures { Parses reader.now (Room room) (s.effect ∷ [])
        (λ x. parts_if block_parts (option_map (block_view kept_place) x)) at result }
{
    let Some(_next) = reader.take(at, Mark::BraceOpen) else {
        return Ok((None, at));
    };
    let (found, end) = block(reader, at, room)?;
    Ok((Some(found), end))
}

/// `id [ block ] ";"`
fn arrival(reader: &Reader<'_>, at: usize, room: usize) -> Parsed<(Identifier, Option<Block>)>
    ensures { Parses reader.now (Room room) (s.identifier ∷ s.effect ∷ s.only k.Semicolon ∷ [])
        (λ x. identifier_parts (identifier_view kept_place x.0)
        ++ (parts_if block_parts (option_map (block_view kept_place) x.1) ++ plain k.Semicolon ∷ [])) at result }
{
    let (target, next) = identifier(reader, at)?;
    let (effect, next) = effect(reader, next, room)?;
    let end = reader.expect(next, Mark::Semicolon)?;
    Ok(((target, effect), end))
}

/// `[ ":" id ] "-[" [ guard ] "]->"`
fn departure(
    reader: &Reader<'_>,
    at: usize,
    room: usize,
) -> Parsed<(Option<Identifier>, Option<Guard>)>
    ensures { Parses reader.now (Room room) (s.after_word ∷ [])
        (λ x. parts_if (behind k.Colon identifier_parts) (option_map (identifier_view kept_place) x.0)
        ++ (plain k.GuardOpen ∷ (parts_if guard_parts (option_map (guard_view kept_place) x.1) ++ plain k.GuardClose
        ∷ []))) at result }
{
    let Some(colon) = reader.take(at, Mark::Colon) else {
        let (guard, end) = guarded(reader, at, room)?;
        return Ok(((None, guard), end));
    };
    let (source, next) = identifier(reader, colon)?;
    let (guard, end) = guarded(reader, next, room)?;
    Ok(((Some(source), guard), end))
}

/// The label and the source of a transition: one word, or two with `:` between them.
fn labelled(first: Identifier, second: Option<Identifier>) -> (Option<Identifier>, Identifier)
    ensures { parts_if label_parts (option_map (identifier_view kept_place) result.0)
        ++ identifier_parts (identifier_view kept_place result.1)
        ≡ identifier_parts (identifier_view kept_place first)
        ++ parts_if (behind k.Colon identifier_parts) (option_map (identifier_view kept_place) second) }
{
    match second {
        Some(source) => (Some(first), source),
        None => (None, first),
    }
}

/// `[ id ":" ] id "-[" [ guard ] "]->" id [ block ] ";"`
fn transition(reader: &Reader<'_>, at: usize, room: usize) -> Parsed<Transition>
    ensures { Parses reader.now (Room room) (s.transition ∷ [])
        (λ x. transition_parts (transition_view kept_place x)) at result }
{
    let (first, next) = identifier(reader, at)?;
    let ((second, guard), next) = departure(reader, next, room)?;
    let ((target, effect), end) = arrival(reader, next, room)?;
    let (label, source) = labelled(first, second);
    let transition = Transition {
        label,
        source,
        guard,
        target,
        effect,
    };
    Ok((transition, end))
}

/// `[ "transitions" { transition } ]`
fn transitions(reader: &Reader<'_>, at: usize, room: usize) -> Parsed<Option<Vec<Transition>>>
    ensures { Parses reader.now (Room room) (s.transitions ∷ [])
        (λ x. parts_if (declared_parts k.Transitions transition_parts)
        (option_map (λ xs. map (transition_view kept_place) xs.items) x)) at result }
{
    let Some(next) = reader.take(at, Mark::Transitions) else {
        return Ok((None, at));
    };
    let none = Vec::new(reader.alloc);
    let (found, end) = followers(reader, next, None, none, |at| transition(reader, at, room))?;
    Ok((Some(found), end))
}

/// The body of a behaviour annex, without the `{**` and the `**}` around it:
/// `[ variables ] [ states ] [ transitions ]`.
pub fn body(reader: &Reader<'_>, at: usize, room: usize) -> Parsed<AnnexTree>
    ensures { Parses reader.now (Room room) annex_body
        (λ x. annex_tree_parts (annex_tree_view kept_place x)) at result }
{
    let (variables, next) = variables(reader, at, room)?;
    let (states, next) = states(reader, next)?;
    let (transitions, end) = transitions(reader, next, room)?;
    let tree = AnnexTree {
        variables,
        states,
        transitions,
    };
    Ok((tree, end))
}
