//! The forms of journal lines.
ghost use Rattle.std.specs.Prelude.{◌≡◌, ℕ, List, Option, is_some, option_and_then};
ghost use Rattle.pals_runs.specs.declared.journal.Arrived.{Arrived};
ghost use Rattle.run_laws.specs.LineForms as lines;
ghost use Rattle.trace_audit.specs.proof.RemainingWords.{words_in};
ghost use Rattle.trace_audit.specs.proof.LineForms.{form_shown, shown};

use crate::numerals::{reading_in, round_in};
use crate::words::{Words, has_words};
use pals_base::Nanos;
use pals_runs::{Arrived, Cause};

/// The part of a journal line about a node. A reading may be absent, as in a loose world.
#[derive(Clone, Copy)]
pub enum NodeLine {
    Start {
        round: u32,
        reading: Option<Nanos>,
    },
    Step {
        round: u32,
        step: u32,
        reading: Option<Nanos>,
    },
    Finish {
        round: u32,
    },
    Send {
        round: u32,
        reading: Option<Nanos>,
    },
}

/// The part of a journal line about a link's message of a round.
#[derive(Clone, Copy)]
pub enum LinkLine {
    Arrive {
        round: u32,
        reading: Option<Nanos>,
        outcome: Arrived,
    },
    Drop {
        round: u32,
    },
    Repeat {
        round: u32,
    },
    Early {
        round: u32,
        reading: Option<Nanos>,
    },
    Missed {
        round: u32,
        reading: Option<Nanos>,
        cause: Cause,
    },
}

/// A journal line: the unresolved name of a node or of a link, and the rest of the line.
#[derive(Clone, Copy)]
pub enum JournalLine<'a> {
    OfNode(&'a str, NodeLine),
    OfLink(&'a str, LinkLine),
}

/// Whether a line has the form of a journal line.
pub fn has_form(line: &str) -> bool
    ensures { result ≡ is_some (lines.form_of line.now) }
{
    form_of(line).is_some()
}

/// The form of a line; `None` if it does not have the form of a journal line.
pub fn form_of(line: &str) -> Option<JournalLine<'_>>
    ensures { form_shown result ≡ lines.form_of line.now }
{
    if !has_words(line.as_bytes()) {
        return None;
    }
    let mut words = Words::of(line);
    match words.next()? {
        "arrive" => arrive_form(words),
        "start" => start_form(words),
        "step" => step_form(words),
        "finish" => finish_form(words),
        "send" => send_form(words),
        "drop" => drop_form(words),
        "repeat" => repeat_form(words),
        "stop" => stop_form(words),
        _ => None,
    }
}

// The result of an arrival that a word denotes.
fn arrived_in(word: &str) -> Option<Arrived>
    ensures { result ≡ lines.arrived_in word.now }
{
    match word {
        "kept" => Some(Arrived::Kept),
        "ignored" => Some(Arrived::Ignored),
        "early" => Some(Arrived::Early),
        _ => None,
    }
}

// The cause that a word denotes.
fn cause_in(word: &str) -> Option<Cause>
    ensures { result ≡ lines.cause_in word.now }
{
    match word {
        "not-sent" => Some(Cause::NotSent),
        "in-transit" => Some(Cause::InTransit),
        "lost" => Some(Cause::Lost),
        _ => None,
    }
}

// A name and a round, whatever follows.
fn named<'a>(words: &mut Words<'a>) -> Option<(&'a str, u32)>
    ensures { (go : List ℕ → ℕ → List (List ℕ) → Option lines.LineForm) →
        lines.named (words_in words.old.rest) go
        ≡ option_and_then (λ p. go p.0.now p.1 (words_in words.new.rest)) result }
{
    let name = words.next()?;
    let round = round_in(words.next()?.as_bytes())?;
    Some((name, round))
}

// A reading, whatever follows.
fn reading(words: &mut Words<'_>) -> Option<Option<Nanos>>
    ensures { (go : Option ℕ → List (List ℕ) → Option lines.LineForm) →
        lines.read (words_in words.old.rest) go
        ≡ option_and_then (λ reading. go reading (words_in words.new.rest)) result }
{
    reading_in(words.next()?.as_bytes())
}

// A form, if no word follows.
#[tactic(auto, using(crate::proofs::FirstWords::words_left))]
fn at_end<'a>(form: JournalLine<'a>, words: Words<'a>) -> Option<JournalLine<'a>>
    ensures { form_shown result ≡ lines.at_end (shown form.entry) (words_in words.entry.rest) }
{
    match words.rest {
        None => Some(form),
        Some(_) => None,
    }
}

fn arrive_form(words: Words<'_>) -> Option<JournalLine<'_>>
    ensures { form_shown result ≡ lines.arrive_line (words_in words.entry.rest) }
{
    let mut words = words;
    let (name, round) = named(&mut words)?;
    let reading = reading(&mut words)?;
    let outcome = arrived_in(words.next()?)?;
    at_end(
        JournalLine::OfLink(
            name,
            LinkLine::Arrive {
                round,
                reading,
                outcome,
            },
        ),
        words,
    )
}

fn start_form(words: Words<'_>) -> Option<JournalLine<'_>>
    ensures { form_shown result ≡ lines.start_line (words_in words.entry.rest) }
{
    let mut words = words;
    let (name, round) = named(&mut words)?;
    let reading = reading(&mut words)?;
    at_end(
        JournalLine::OfNode(name, NodeLine::Start { round, reading }),
        words,
    )
}

fn step_form(words: Words<'_>) -> Option<JournalLine<'_>>
    ensures { form_shown result ≡ lines.step_line (words_in words.entry.rest) }
{
    let mut words = words;
    let (name, round) = named(&mut words)?;
    let step = round_in(words.next()?.as_bytes())?;
    let reading = reading(&mut words)?;
    at_end(
        JournalLine::OfNode(
            name,
            NodeLine::Step {
                round,
                step,
                reading,
            },
        ),
        words,
    )
}

fn finish_form(words: Words<'_>) -> Option<JournalLine<'_>>
    ensures { form_shown result ≡ lines.finish_line (words_in words.entry.rest) }
{
    let mut words = words;
    let (name, round) = named(&mut words)?;
    at_end(JournalLine::OfNode(name, NodeLine::Finish { round }), words)
}

fn send_form(words: Words<'_>) -> Option<JournalLine<'_>>
    ensures { form_shown result ≡ lines.send_line (words_in words.entry.rest) }
{
    let mut words = words;
    let (name, round) = named(&mut words)?;
    let reading = reading(&mut words)?;
    at_end(
        JournalLine::OfNode(name, NodeLine::Send { round, reading }),
        words,
    )
}

fn drop_form(words: Words<'_>) -> Option<JournalLine<'_>>
    ensures { form_shown result ≡ lines.drop_line (words_in words.entry.rest) }
{
    let mut words = words;
    let (name, round) = named(&mut words)?;
    at_end(JournalLine::OfLink(name, LinkLine::Drop { round }), words)
}

fn repeat_form(words: Words<'_>) -> Option<JournalLine<'_>>
    ensures { form_shown result ≡ lines.repeat_line (words_in words.entry.rest) }
{
    let mut words = words;
    let (name, round) = named(&mut words)?;
    at_end(JournalLine::OfLink(name, LinkLine::Repeat { round }), words)
}

fn stop_form(words: Words<'_>) -> Option<JournalLine<'_>>
    ensures { form_shown result ≡ lines.stop_line (words_in words.entry.rest) }
{
    let mut words = words;
    match words.next()? {
        "early" => early_form(words),
        "missed" => missed_form(words),
        _ => None,
    }
}

fn early_form(words: Words<'_>) -> Option<JournalLine<'_>>
    ensures { form_shown result ≡ lines.early_line (words_in words.entry.rest) }
{
    let mut words = words;
    let (name, round) = named(&mut words)?;
    let reading = reading(&mut words)?;
    at_end(
        JournalLine::OfLink(name, LinkLine::Early { round, reading }),
        words,
    )
}

fn missed_form(words: Words<'_>) -> Option<JournalLine<'_>>
    ensures { form_shown result ≡ lines.missed_line (words_in words.entry.rest) }
{
    let mut words = words;
    let (name, round) = named(&mut words)?;
    let reading = reading(&mut words)?;
    let cause = cause_in(words.next()?)?;
    at_end(
        JournalLine::OfLink(
            name,
            LinkLine::Missed {
                round,
                reading,
                cause,
            },
        ),
        words,
    )
}
