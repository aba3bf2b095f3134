//! The line of a package without an instance model.
ghost use Rattle.std.specs.Prelude.{◌≡◌, ◌++◌, OnOk, OnErr};
ghost use Rattle.pals_model.specs.RoundTexts.{line_end};
ghost use Rattle.pals_report.specs.proof.TextPrefixes.{BeginsWith};
ghost use Rattle.bundle_designs.specs.PackageFaultLines.{and_word, package_fault_words, package_fault_line};
ghost use Rattle.bundle_designs.specs.LinesAndColumns.{position_text};

use crate::cursor::Cursor;
use aadl_names::PackageFault;
use itoa::Buffer;
use pals_base::{NoMemory, Text};
use pals_report::whole_or_none;

/// Appends the line of a package fault: its number, its name, and the name and position in the text that belong
/// to it. Errors: out of memory; the buffer is then unchanged.
pub fn add_package_fault(
    out: &mut Vec<u8>,
    text: &[u8],
    fault: &PackageFault,
) -> Result<(), NoMemory>
    ensures ok { OnOk result
        (out.new.items ≡ out.old.items ++ package_fault_line text.now fault.now ++ line_end) }
    ensures err { OnErr result (out.new.items ≡ out.old.items) }
{
    let start = out.len();
    let written = add_line(out, text, fault);
    whole_or_none(out, start, written)
}

fn add_line(out: &mut Vec<u8>, text: &[u8], fault: &PackageFault) -> Result<(), NoMemory>
    ensures ok { OnOk result
        (out.new.items ≡ out.old.items ++ package_fault_line text.now fault.now ++ line_end) }
    ensures err { OnErr result (BeginsWith out.new.items out.old.items) }
{
    out.extend_from_slice(b"flat ")?;
    out.extend_from_slice(Buffer::new().format(fault.number()).as_bytes())?;
    out.extend_from_slice(b" ")?;
    add_words(out, text, fault)?;
    out.extend_from_slice(b"\n")
}

fn add_words(out: &mut Vec<u8>, text: &[u8], fault: &PackageFault) -> Result<(), NoMemory>
    ensures ok { OnOk result (out.new.items ≡ out.old.items ++ package_fault_words text.now fault.now) }
    ensures err { OnErr result (BeginsWith out.new.items out.old.items) }
{
    match fault {
        PackageFault::NoRoot => out.extend_from_slice(b"NoRoot"),
        PackageFault::Unknown { name, at } => add_named(out, b"Unknown", name, text, *at),
        PackageFault::Twice { name, at } => add_named(out, b"Twice", name, text, *at),
        PackageFault::WrongKind { at } => add_placed(out, b"WrongKind", text, *at),
        PackageFault::Recursive { name, at } => add_named(out, b"Recursive", name, text, *at),
        PackageFault::DeadEnd { name, at } => add_named(out, b"DeadEnd", name, text, *at),
        PackageFault::TwoSources { name, at } => add_named(out, b"TwoSources", name, text, *at),
        PackageFault::TooMany { what } => {
            out.extend_from_slice(b"TooMany ")?;
            out.extend_from_slice(what.as_bytes())
        }
        PackageFault::Memory => out.extend_from_slice(b"Memory"),
    }
}

// The fault, the name that it concerns, and its position.
fn add_named(
    out: &mut Vec<u8>,
    word: &[u8],
    name: &Text,
    text: &[u8],
    at: usize,
) -> Result<(), NoMemory>
    ensures ok { OnOk result
        (out.new.items ≡ out.old.items ++ word.now ++ and_word name.now ++ and_word (position_text text.now at)) }
    ensures err { OnErr result (BeginsWith out.new.items out.old.items) }
{
    out.extend_from_slice(word)?;
    out.extend_from_slice(b" ")?;
    add_placed(out, name.as_bytes(), text, at)
}

// A word followed by a position.
fn add_placed(out: &mut Vec<u8>, word: &[u8], text: &[u8], at: usize) -> Result<(), NoMemory>
    ensures ok { OnOk result
        (out.new.items ≡ out.old.items ++ word.now ++ and_word (position_text text.now at)) }
    ensures err { OnErr result (BeginsWith out.new.items out.old.items) }
{
    out.extend_from_slice(word)?;
    out.extend_from_slice(b" ")?;
    Cursor::new(text).add_position(out, at)
}
