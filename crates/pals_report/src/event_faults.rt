//! The line of an event that a world rejects.
ghost use Rattle.std.specs.Prelude.{◌≡◌, [], ◌∷◌, ◌++◌, decimal, OnOk, OnErr, codes};
ghost use Rattle.pals_model.specs.RoundTexts.{line_end};
ghost use Rattle.pals_runs.specs.JournalLines.{node_word, link_word, spaced};
ghost use Rattle.pals_report.specs.EventFaultLines.{subject_words, event_fault_line};

use crate::line_word::{LineWord, add_line, link_word, node_word};
use pals_base::{LinkNo, Nanos, NoMemory, NodeNo};
use pals_model::{Design, DesignParts};
use pals_runs::{EventFault, EventSubject};

// A fault without details.
fn add_bare(out: &mut Vec<u8>, index: u32, fault: &[u8]) -> Result<(), NoMemory>
    ensures ok { OnOk result (out.new.items
        ≡ out.old.items ++ spaced (codes "event" ∷ decimal index ∷ fault.now ∷ []) ++ line_end) }
    ensures err { OnErr result (out.new.items ≡ out.old.items) }
{
    let event = LineWord::Bytes(b"event");
    let index = LineWord::Number(u64::from(index));
    add_line(out, &[event, index, LineWord::Bytes(fault)])
}

// A fault with a node and a reading.
fn add_reading<'a>(
    out: &mut Vec<u8>,
    design: &'a DesignParts,
    index: u32,
    fault: &'a [u8],
    node: NodeNo,
    reading: Nanos,
) -> Result<(), NoMemory>
    ensures ok { OnOk result (out.new.items ≡ out.old.items
        ++ spaced (codes "event" ∷ decimal index ∷ fault.now ∷ node_word design.now node.0 ∷ decimal reading ∷ [])
        ++ line_end) }
    ensures err { OnErr result (out.new.items ≡ out.old.items) }
{
    let event = LineWord::Bytes(b"event");
    let index = LineWord::Number(u64::from(index));
    let node = node_word(design, node);
    add_line(
        out,
        &[
            event,
            index,
            LineWord::Bytes(fault),
            node,
            LineWord::Number(reading),
        ],
    )
}

// A fault with the message of a link and a round.
fn add_message(
    out: &mut Vec<u8>,
    design: &DesignParts,
    index: u32,
    link: LinkNo,
    round: u32,
) -> Result<(), NoMemory>
    ensures ok { OnOk result (out.new.items ≡ out.old.items
        ++ spaced (codes "event" ∷ decimal index ∷ codes "NoSuchMessage" ∷ link_word design.now link.0 ∷ decimal round ∷ [])
        ++ line_end) }
    ensures err { OnErr result (out.new.items ≡ out.old.items) }
{
    let event = LineWord::Bytes(b"event");
    let index = LineWord::Number(u64::from(index));
    let fault = LineWord::Bytes(b"NoSuchMessage");
    let link = link_word(design, link);
    add_line(
        out,
        &[
            event,
            index,
            fault,
            link,
            LineWord::Number(u64::from(round)),
        ],
    )
}

// A fault with a node or a message, and a time.
fn add_time<'a>(
    out: &mut Vec<u8>,
    design: &'a DesignParts,
    index: u32,
    fault: &'a [u8],
    subject: EventSubject,
    time: Nanos,
) -> Result<(), NoMemory>
    ensures ok { OnOk result (out.new.items ≡ out.old.items
        ++ spaced (codes "event" ∷ decimal index ∷ fault.now ∷ subject_words design.now subject ++ decimal time ∷ [])
        ++ line_end) }
    ensures err { OnErr result (out.new.items ≡ out.old.items) }
{
    let event = LineWord::Bytes(b"event");
    let index = LineWord::Number(u64::from(index));
    let fault = LineWord::Bytes(fault);
    let time = LineWord::Number(time);
    match subject {
        EventSubject::Node(node) => {
            let node = node_word(design, node);
            add_line(out, &[event, index, fault, node, time])
        }
        EventSubject::Message(link, round) => {
            let link = link_word(design, link);
            let round = LineWord::Number(u64::from(round));
            add_line(out, &[event, index, fault, link, round, time])
        }
    }
}

/// Appends the line of a rejected event: `event`, its index among the events, the fault, and the details of the
/// fault. Errors: out of memory; the buffer is then unchanged.
pub fn add_event_fault(
    out: &mut Vec<u8>,
    design: &Design,
    index: u32,
    fault: &EventFault,
) -> Result<(), NoMemory>
    ensures ok { OnOk result
        (out.new.items ≡ out.old.items ++ event_fault_line design.now index fault.now ++ line_end) }
    ensures err { OnErr result (out.new.items ≡ out.old.items) }
{
    let design = design.parts();
    let event = LineWord::Bytes(b"event");
    let place = LineWord::Number(u64::from(index));
    match *fault {
        EventFault::BadName => add_bare(out, index, b"BadName"),
        EventFault::LossOrRepeat => add_bare(out, index, b"LossOrRepeat"),
        EventFault::TimeBack { time } => {
            let fault = LineWord::Bytes(b"TimeBack");
            add_line(out, &[event, place, fault, LineWord::Number(time)])
        }
        EventFault::ClockBack { node, reading } => {
            add_reading(out, design, index, b"ClockBack", node, reading)
        }
        EventFault::ClockApart { node, reading } => {
            add_reading(out, design, index, b"ClockApart", node, reading)
        }
        EventFault::PastDeadline { subject, last } => {
            add_time(out, design, index, b"PastDeadline", subject, last)
        }
        EventFault::WrongPhase { node } => {
            let fault = LineWord::Bytes(b"WrongPhase");
            add_line(out, &[event, place, fault, node_word(design, node)])
        }
        EventFault::NoSuchMessage { link, round } => add_message(out, design, index, link, round),
        EventFault::NotDue {
            node,
            alarm,
            reading,
        } => {
            let fault = LineWord::Bytes(b"NotDue");
            let node = node_word(design, node);
            let alarm = LineWord::Number(alarm);
            add_line(
                out,
                &[event, place, fault, node, alarm, LineWord::Number(reading)],
            )
        }
        EventFault::TooSoon { subject, earliest } => {
            add_time(out, design, index, b"TooSoon", subject, earliest)
        }
        EventFault::Memory => add_bare(out, index, b"Memory"),
    }
}
