//! The lines of an event journal.
ghost use Rattle.std.specs.Prelude.{◌≡◌, [], ◌∷◌, ◌++◌, decimal, OnOk, OnErr};
ghost use Rattle.pals_model.specs.RoundTexts.{line_end};
ghost use Rattle.pals_runs.specs.JournalLines.{node_word, link_word, reading_word, arrived_word, cause_word};
ghost use Rattle.pals_runs.specs.JournalLines.{stop_words, spaced, entry_line};

use crate::line_word::{LineWord, add_line, link_word, node_word, reading_word};
use pals_base::{LinkNo, Nanos, NoMemory, NodeNo};
use pals_model::{Design, DesignParts};
use pals_runs::{Arrived, Cause, JournalEntry, Stop};

fn arrived_word(arrived: Arrived) -> &'static [u8]
    ensures { result.now ≡ arrived_word arrived }
{
    match arrived {
        Arrived::Kept => b"kept",
        Arrived::Ignored => b"ignored",
        Arrived::Early => b"early",
    }
}

fn cause_word(cause: Cause) -> &'static [u8]
    ensures { result.now ≡ cause_word cause }
{
    match cause {
        Cause::NotSent => b"not-sent",
        Cause::InTransit => b"in-transit",
        Cause::Lost => b"lost",
    }
}

// The line of a run stop.
fn add_stop(out: &mut Vec<u8>, design: &DesignParts, stop: Stop) -> Result<(), NoMemory>
    ensures ok { OnOk result
        (out.new.items ≡ out.old.items ++ spaced (stop_words design.now stop) ++ line_end) }
    ensures err { OnErr result (out.new.items ≡ out.old.items) }
{
    let first = LineWord::Bytes(b"stop");
    match stop {
        Stop::Missed {
            link,
            round,
            reading,
            cause,
        } => {
            let kind = LineWord::Bytes(b"missed");
            let link = link_word(design, link);
            let round = LineWord::Number(u64::from(round));
            let reading = reading_word(reading);
            let cause = LineWord::Bytes(cause_word(cause));
            add_line(out, &[first, kind, link, round, reading, cause])
        }
        Stop::Early {
            link,
            round,
            reading,
        } => {
            let kind = LineWord::Bytes(b"early");
            let link = link_word(design, link);
            let round = LineWord::Number(u64::from(round));
            add_line(out, &[first, kind, link, round, reading_word(reading)])
        }
    }
}

// The line of an action of a node in a round, at a reading.
fn add_action<'a>(
    out: &mut Vec<u8>,
    design: &'a DesignParts,
    action: &'a [u8],
    node: NodeNo,
    round: u32,
    reading: Option<Nanos>,
) -> Result<(), NoMemory>
    ensures ok { OnOk result (out.new.items ≡ out.old.items
        ++ spaced (action.now ∷ node_word design.now node.0 ∷ decimal round ∷ reading_word reading ∷ []) ++ line_end) }
    ensures err { OnErr result (out.new.items ≡ out.old.items) }
{
    let node = node_word(design, node);
    let round = LineWord::Number(u64::from(round));
    add_line(
        out,
        &[LineWord::Bytes(action), node, round, reading_word(reading)],
    )
}

// The line of an event that affects the message of a link and a round in flight.
fn add_loss<'a>(
    out: &mut Vec<u8>,
    design: &'a DesignParts,
    change: &'a [u8],
    link: LinkNo,
    round: u32,
) -> Result<(), NoMemory>
    ensures ok { OnOk result (out.new.items ≡ out.old.items
        ++ spaced (change.now ∷ link_word design.now link.0 ∷ decimal round ∷ []) ++ line_end) }
    ensures err { OnErr result (out.new.items ≡ out.old.items) }
{
    let link = link_word(design, link);
    add_line(
        out,
        &[
            LineWord::Bytes(change),
            link,
            LineWord::Number(u64::from(round)),
        ],
    )
}

/// Appends the line of a journal entry. Errors: out of memory; the buffer is then unchanged.
pub fn add_entry(out: &mut Vec<u8>, design: &Design, entry: &JournalEntry) -> Result<(), NoMemory>
    ensures ok { OnOk result
        (out.new.items ≡ out.old.items ++ entry_line design.now entry.now ++ line_end) }
    ensures err { OnErr result (out.new.items ≡ out.old.items) }
{
    let design = design.parts();
    match *entry {
        JournalEntry::Arrive {
            link,
            round,
            reading,
            result,
        } => {
            let link = link_word(design, link);
            let round = LineWord::Number(u64::from(round));
            let result = LineWord::Bytes(arrived_word(result));
            let arrive = LineWord::Bytes(b"arrive");
            add_line(out, &[arrive, link, round, reading_word(reading), result])
        }
        JournalEntry::Start {
            node,
            round,
            reading,
        } => add_action(out, design, b"start", node, round, reading),
        JournalEntry::Step {
            node,
            round,
            step,
            reading,
        } => {
            let node = node_word(design, node);
            let round = LineWord::Number(u64::from(round));
            let step = LineWord::Number(u64::from(step));
            add_line(
                out,
                &[
                    LineWord::Bytes(b"step"),
                    node,
                    round,
                    step,
                    reading_word(reading),
                ],
            )
        }
        JournalEntry::Finish { node, round } => {
            let node = node_word(design, node);
            let round = LineWord::Number(u64::from(round));
            add_line(out, &[LineWord::Bytes(b"finish"), node, round])
        }
        JournalEntry::Send {
            node,
            round,
            reading,
        } => add_action(out, design, b"send", node, round, reading),
        JournalEntry::Drop { link, round } => add_loss(out, design, b"drop", link, round),
        JournalEntry::Repeat { link, round } => add_loss(out, design, b"repeat", link, round),
        JournalEntry::Stopped(stop) => add_stop(out, design, stop),
    }
}
