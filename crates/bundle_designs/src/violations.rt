//! The violations of a design, one line each.
ghost use Rattle.std.specs.Prelude.{◌≡◌, ◌++◌, OnOk, OnErr};
ghost use Rattle.pals_model.specs.RoundTexts.{line_end, text_of};
ghost use Rattle.pals_report.specs.proof.TextPrefixes.{BeginsWith};
ghost use Rattle.bundle_designs.specs.PackageFaultLines.{and_word};
ghost use Rattle.bundle_designs.specs.ViolationLines.{rule_name, details_text, violation_line, violation_lines};

use crate::cursor::Cursor;
use annex_resolve::Violation;
use itoa::Buffer;
use pals_base::NoMemory;
use pals_report::whole_or_none;

/// Appends a line for each violation: its position, the number and the name of its rule, and the details.
/// Violations in the order of their positions take one pass through the text. Errors: out of memory; the buffer
/// is then unchanged.
pub fn add_violations(out: &mut Vec<u8>, text: &[u8], found: &[Violation]) -> Result<(), NoMemory>
    ensures ok { OnOk result
        (out.new.items ≡ out.old.items ++ text_of (violation_lines text.now found.now)) }
    ensures err { OnErr result (out.new.items ≡ out.old.items) }
{
    let start = out.len();
    let written = add_lines(out, text, found);
    whole_or_none(out, start, written)
}

fn add_lines(out: &mut Vec<u8>, text: &[u8], found: &[Violation]) -> Result<(), NoMemory>
    ensures ok { OnOk result
        (out.new.items ≡ out.old.items ++ text_of (violation_lines text.now found.now)) }
    ensures err { OnErr result (BeginsWith out.new.items out.old.items) }
{
    let mut cursor = Cursor::new(text);
    for violation in found {
        add_line(out, &mut cursor, violation)?;
    }
    Ok(())
}

fn add_line(
    out: &mut Vec<u8>,
    cursor: &mut Cursor<'_>,
    violation: &Violation,
) -> Result<(), NoMemory>
    ensures text { cursor.new.text.now ≡ cursor.old.text.now }
    ensures ok { OnOk result
        (out.new.items ≡ out.old.items ++ violation_line cursor.old.text.now violation.now ++ line_end) }
    ensures err { OnErr result (BeginsWith out.new.items out.old.items) }
{
    cursor.add_position(out, violation.at)?;
    add_word(out, Buffer::new().format(violation.number).as_bytes())?;
    add_word(out, rule_name(violation.number))?;
    add_details(out, violation.details.as_bytes())?;
    out.extend_from_slice(b"\n")
}

// A space and a word.
fn add_word(out: &mut Vec<u8>, word: &[u8]) -> Result<(), NoMemory>
    ensures ok { OnOk result (out.new.items ≡ out.old.items ++ and_word word.now) }
    ensures err { OnErr result (BeginsWith out.new.items out.old.items) }
{
    out.extend_from_slice(b" ")?;
    out.extend_from_slice(word)
}

// The text after a rule's name, if there is any.
fn add_details(out: &mut Vec<u8>, details: &[u8]) -> Result<(), NoMemory>
    ensures ok { OnOk result (out.new.items ≡ out.old.items ++ details_text details.now) }
    ensures err { OnErr result (BeginsWith out.new.items out.old.items) }
{
    if details.is_empty() {
        return Ok(());
    }
    add_word(out, details)
}

#[tactic(auto, unfolding(crate::specs::ViolationLines::rule_name))]
fn rule_name(number: u32) -> &'static [u8]
    ensures { result.now ≡ rule_name number }
{
    match number {
        1 => b"BadType",
        2 => b"NotPeriodic",
        3 => b"NoPeriod",
        4 => b"NotDivisor",
        5 => b"RateTooHigh",
        6 => b"RatesDontDivide",
        7 => b"NotDelayed",
        8 => b"DelayedRoot",
        9 => b"NoAdaptor",
        10 => b"StrayAdaptor",
        11 => b"AdaptorOutOfRange",
        12 => b"NoInitial",
        13 => b"DispatchCount",
        14 => b"NoOtherwise",
        15 => b"CycleWithoutComplete",
        16 => b"GammaMissing",
        17 => b"GammaOrder",
        18 => b"PeriodTooShort",
        19 => b"LoopTooLong",
        20 => b"NumberTooBig",
        _ => b"",
    }
}
