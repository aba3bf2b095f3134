//! The line of a rejected design text.
ghost use Rattle.std.specs.Prelude.{◌≡◌, ◌++◌, OnOk, OnErr};
ghost use Rattle.pals_model.specs.RoundTexts.{line_end};
ghost use Rattle.pals_report.specs.proof.TextPrefixes.{BeginsWith};
ghost use Rattle.bundle_designs.specs.TextFaultLines.{lexical_name, lexical_place, fault_name, fault_place, text_line};
ghost use Rattle.bundle_designs.specs.TextFaultLines.{text_fault_line, no_divider_line};

use crate::cursor::Cursor;
use aadl_lex::LexFault;
use aadl_parse::TextFault;
use pals_base::NoMemory;
use pals_report::whole_or_none;

/// Appends the line of a fault of a design text: its position as `LINE:COLUMN`, and its name. Errors: out of
/// memory; the buffer is then unchanged.
pub fn add_text_fault(out: &mut Vec<u8>, text: &[u8], fault: &TextFault) -> Result<(), NoMemory>
    ensures ok { OnOk result
        (out.new.items ≡ out.old.items ++ text_fault_line text.now fault.now ++ line_end) }
    ensures err { OnErr result (out.new.items ≡ out.old.items) }
{
    let start = out.len();
    let written = add_text_line(out, text, fault_place(fault), fault_name(fault));
    whole_or_none(out, start, written)
}

/// Appends the line of a bundle without a dividing line; the position is the bundle's end. Errors: out of
/// memory; the buffer is then unchanged.
pub fn add_no_divider(out: &mut Vec<u8>, bundle: &[u8]) -> Result<(), NoMemory>
    ensures ok { OnOk result
        (out.new.items ≡ out.old.items ++ no_divider_line bundle.now ++ line_end) }
    ensures err { OnErr result (out.new.items ≡ out.old.items) }
{
    let start = out.len();
    let written = add_text_line(out, bundle, bundle.len(), b"NoDivider");
    whole_or_none(out, start, written)
}

// The line of a fault at a position of a text.
fn add_text_line(out: &mut Vec<u8>, text: &[u8], at: usize, name: &[u8]) -> Result<(), NoMemory>
    ensures ok { OnOk result
        (out.new.items ≡ out.old.items ++ text_line text.now at name.now ++ line_end) }
    ensures err { OnErr result (BeginsWith out.new.items out.old.items) }
{
    out.extend_from_slice(b"text ")?;
    Cursor::new(text).add_position(out, at)?;
    out.extend_from_slice(b" ")?;
    out.extend_from_slice(name)?;
    out.extend_from_slice(b"\n")
}

fn fault_name(fault: &TextFault) -> &'static [u8]
    ensures { result.now ≡ fault_name fault.now }
{
    match fault {
        TextFault::Lex(fault) => lexical_name(fault),
        TextFault::Syntax { .. } => b"Syntax",
        TextFault::TooDeep { .. } => b"TooDeep",
        TextFault::Memory => b"Memory",
    }
}

fn lexical_name(fault: &LexFault) -> &'static [u8]
    ensures { result.now ≡ lexical_name fault.now }
{
    match fault {
        LexFault::NotUtf8 { .. } => b"NotUtf8",
        LexFault::BadByte { .. } => b"BadByte",
        LexFault::OpenString { .. } => b"OpenString",
        LexFault::OpenAnnex { .. } => b"OpenAnnex",
        LexFault::BigNumber { .. } => b"BigNumber",
        LexFault::LongName { .. } => b"LongName",
        LexFault::Memory => b"Memory",
    }
}

fn fault_place(fault: &TextFault) -> usize
    ensures { result ≡ fault_place fault.now }
{
    match fault {
        TextFault::Lex(fault) => lexical_place(fault),
        TextFault::Syntax { at } | TextFault::TooDeep { at } => *at,
        TextFault::Memory => 0,
    }
}

fn lexical_place(fault: &LexFault) -> usize
    ensures { result ≡ lexical_place fault.now }
{
    match fault {
        LexFault::NotUtf8 { at }
        | LexFault::BadByte { at }
        | LexFault::OpenString { at }
        | LexFault::OpenAnnex { at }
        | LexFault::BigNumber { at }
        | LexFault::LongName { at } => *at,
        LexFault::Memory => 0,
    }
}
