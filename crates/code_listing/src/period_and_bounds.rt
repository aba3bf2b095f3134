//! The first line of a listing, and the lines of the design's period and bounds.
ghost use Rattle.std.specs.Prelude.{◌≡◌, ◌++◌, OnOk, OnErr};
ghost use Rattle.pals_model.specs.RoundTexts.{line_end, text_of};
ghost use Rattle.pals_report.specs.proof.TextPrefixes.{BeginsWith};
ghost use Rattle.code_listing.specs.Listings.{range_line, period_and_bounds_lines};

use pals_base::{Nanos, NoMemory};
use pals_model::DesignParts;
use pals_report::{LineWord, add_line};

/// Appends the first line of a listing, and the lines of the period and the bounds, in nanoseconds.
pub fn add_bounds(out: &mut Vec<u8>, design: &DesignParts) -> Result<(), NoMemory>
    ensures ok { OnOk result (out.new.items ≡ out.old.items ++ text_of (period_and_bounds_lines design.now)) }
    ensures err { OnErr result (BeginsWith out.new.items out.old.items) }
{
    let gamma = &design.gamma;
    add_line(out, &[LineWord::Bytes(b"pals-code"), LineWord::Number(1)])?;
    add_line(
        out,
        &[LineWord::Bytes(b"period"), LineWord::Number(design.period)],
    )?;
    add_line(
        out,
        &[LineWord::Bytes(b"skew"), LineWord::Number(gamma.eps)],
    )?;
    add_range(out, b"execution", gamma.alpha_min, gamma.alpha_max)?;
    add_range(out, b"network", gamma.mu_min, gamma.mu_max)
}

// The line of a duration's minimum and maximum.
fn add_range(out: &mut Vec<u8>, word: &[u8], least: Nanos, most: Nanos) -> Result<(), NoMemory>
    ensures ok { OnOk result
        (out.new.items ≡ out.old.items ++ range_line word.now least most ++ line_end) }
    ensures err { OnErr result (out.new.items ≡ out.old.items) }
{
    add_line(
        out,
        &[
            LineWord::Bytes(word),
            LineWord::Number(least),
            LineWord::Number(most),
        ],
    )
}
