//! The kinds of words in a line, and lines of words separated by spaces.
ghost use Rattle.std.specs.Prelude.{◌≡◌, ◌++◌, map, Some, OnOk, OnErr};
ghost use Rattle.pals_model.specs.ComponentAndLinkNames.{in_port_name};
ghost use Rattle.pals_model.specs.RoundTexts.{line_end};
ghost use Rattle.pals_runs.specs.JournalLines.{node_word, link_word, reading_word, spaced};
ghost use Rattle.pals_report.specs.proof.LineWords.{word_text};
ghost use Rattle.pals_report.specs.proof.TextPrefixes.{BeginsWith};

use crate::{add_tuple, whole_or_none};
use itoa::Buffer;
use pals_base::{Kind, LinkNo, Nanos, NoMemory, NodeNo, PortValue};
use pals_model::{Component, DesignParts};

/// A word of a line.
#[derive(Clone, Copy)]
pub enum LineWord<'a> {
    /// These bytes.
    Bytes(&'a [u8]),
    /// A number in decimal.
    Number(u64),
    /// A number of up to 128 bits in decimal.
    Wide(u128),
    /// A number in decimal, with `-` if it is negative.
    Signed(i64),
    /// The name of a loop's slot: `#` and its number among the slots of loops.
    LoopSlot(u64),
    /// The name of an in port: a path, `.` and a name.
    Port(&'a [u8], &'a [u8]),
    /// A tuple of values of one type.
    Tuple(Kind, &'a [PortValue]),
}

// Appends a word.
fn add_word(out: &mut Vec<u8>, word: LineWord<'_>) -> Result<(), NoMemory>
    ensures ok { OnOk result (out.new.items ≡ out.old.items ++ word_text word.entry) }
    ensures err { OnErr result (BeginsWith out.new.items out.old.items) }
{
    match word {
        LineWord::Bytes(bytes) => out.extend_from_slice(bytes),
        LineWord::Number(number) => out.extend_from_slice(Buffer::new().format(number).as_bytes()),
        LineWord::Wide(number) => out.extend_from_slice(Buffer::new().format(number).as_bytes()),
        LineWord::Signed(number) => out.extend_from_slice(Buffer::new().format(number).as_bytes()),
        LineWord::LoopSlot(number) => {
            out.extend_from_slice(b"#")?;
            out.extend_from_slice(Buffer::new().format(number).as_bytes())
        }
        LineWord::Port(path, name) => {
            out.extend_from_slice(path)?;
            out.extend_from_slice(b".")?;
            out.extend_from_slice(name)
        }
        LineWord::Tuple(kind, tuple) => add_tuple(out, kind, tuple),
    }
}

// Appends words, separated by single spaces.
fn add_words(out: &mut Vec<u8>, words: &[LineWord<'_>]) -> Result<(), NoMemory>
    ensures ok { OnOk result
        (out.new.items ≡ out.old.items ++ spaced (map word_text words.now)) }
    ensures err { OnErr result (BeginsWith out.new.items out.old.items) }
{
    let [first, rest @ ..] = words else {
        return Ok(());
    };
    add_word(out, *first)?;
    for word in rest {
        out.extend_from_slice(b" ")?;
        add_word(out, *word)?;
    }
    Ok(())
}

// Appends words and a line end.
fn add_whole_line(out: &mut Vec<u8>, words: &[LineWord<'_>]) -> Result<(), NoMemory>
    ensures ok { OnOk result
        (out.new.items ≡ out.old.items ++ spaced (map word_text words.now) ++ line_end) }
    ensures err { OnErr result (BeginsWith out.new.items out.old.items) }
{
    add_words(out, words)?;
    out.extend_from_slice(b"\n")
}

/// Appends a line of words. Errors: out of memory; the buffer is then unchanged.
pub fn add_line(out: &mut Vec<u8>, words: &[LineWord<'_>]) -> Result<(), NoMemory>
    ensures ok { OnOk result
        (out.new.items ≡ out.old.items ++ spaced (map word_text words.now) ++ line_end) }
    ensures err { OnErr result (out.new.items ≡ out.old.items) }
{
    let start = out.len();
    let written = add_whole_line(out, words);
    whole_or_none(out, start, written)
}

/// Returns the path of a component; empty if there is no such component.
pub fn node_word(design: &DesignParts, node: NodeNo) -> LineWord<'_>
    ensures { word_text result ≡ node_word design.now node.0 }
{
    match design.component(node) {
        Some(component) => LineWord::Bytes(component.path.as_bytes()),
        None => LineWord::Bytes(b""),
    }
}

// The name of an in port of a component.
fn port_word(component: &Component, port: u32) -> LineWord<'_>
    ensures { word_text result ≡ in_port_name (Some component.now) port }
{
    let path = component.path.as_bytes();
    match component.behaviour.ins().get(port as usize) {
        Some(port) => LineWord::Port(path, port.name.as_bytes()),
        None => LineWord::Port(path, b""),
    }
}

/// Returns the name of a link, which is the name of its target port.
pub(crate) fn link_word(design: &DesignParts, link: LinkNo) -> LineWord<'_>
    ensures { word_text result ≡ link_word design.now link.0 }
{
    let Some(link) = design.links.get(link.0 as usize) else {
        return LineWord::Bytes(b"");
    };
    match design.component(link.target) {
        Some(component) => port_word(component, link.in_port),
        None => LineWord::Bytes(b""),
    }
}

/// Returns a reading, or `_` if there is none.
pub(crate) fn reading_word(reading: Option<Nanos>) -> LineWord<'static>
    ensures { word_text result ≡ reading_word reading }
{
    match reading {
        Some(reading) => LineWord::Number(reading),
        None => LineWord::Bytes(b"_"),
    }
}
