//! The whole listing of a design and its codes: its bounds, its components, and its links, feeds and taps.
ghost use Rattle.std.specs.Prelude.{◌≡◌, ◌++◌, OnOk, OnErr};
ghost use Rattle.pals_model.specs.RoundTexts.{text_of};
ghost use Rattle.pals_report.specs.proof.TextPrefixes.{BeginsWith};
ghost use Rattle.code_listing.specs.Listings.{lines_of_all, listing_lines, listing};
ghost use Rattle.code_listing.specs.NumberRanges.{AllFit};

use crate::component::add_component;
use crate::period_and_bounds::add_bounds;
use pals_base::NoMemory;
use pals_model::{Design, DesignParts};
use pals_report::{LineWord, add_feeds, add_line, add_links, add_taps, whole_or_none};
use step_code::Code;

/// Appends the listing of a design and of the step codes of its components, in the order of the
/// components. If memory runs out, nothing is appended.
pub fn add_listing(out: &mut Vec<u8>, design: &Design, codes: &[Code]) -> Result<(), NoMemory>
    ensures ok { OnOk result (out.new.items ≡ out.old.items ++ listing design.now codes.now) }
    ensures err { OnErr result (out.new.items ≡ out.old.items) }
    ensures fit { OnOk result (AllFit design.now.components codes.now) }
{
    let start = out.len();
    let written = add_lines(out, design.parts(), codes);
    whole_or_none(out, start, written)
}

// All lines.
fn add_lines(out: &mut Vec<u8>, design: &DesignParts, codes: &[Code]) -> Result<(), NoMemory>
    ensures ok { OnOk result
        (out.new.items ≡ out.old.items ++ text_of (listing_lines design.now codes.now)) }
    ensures err { OnErr result (BeginsWith out.new.items out.old.items) }
    ensures fit { OnOk result (AllFit design.now.components codes.now) }
{
    add_bounds(out, design)?;
    add_components(out, design, codes)?;
    add_links(out, design, design.links.as_slice())?;
    add_feeds(out, design, design.feeds.as_slice())?;
    add_taps(out, design, design.taps.as_slice())?;
    add_line(out, &[LineWord::Bytes(b"end")])
}

// The lines of each component that has a code.
fn add_components(out: &mut Vec<u8>, design: &DesignParts, codes: &[Code]) -> Result<(), NoMemory>
    ensures ok { OnOk result (out.new.items
        ≡ out.old.items ++ text_of (lines_of_all design.now design.now.components codes.now)) }
    ensures err { OnErr result (BeginsWith out.new.items out.old.items) }
    ensures fit { OnOk result (AllFit design.now.components codes.now) }
{
    for (component, code) in design.components.as_slice().iter().zip(codes) {
        add_component(out, design, component, code)?;
    }
    Ok(())
}
