//! The row of a round: its own line, and the lines of its components and root out ports.
ghost use Rattle.std.specs.Prelude.{◌≡◌, ◌≤◌, ◌++◌, length, OnOk, OnErr};
ghost use Rattle.pals_base.specs.declared.limits.TheConstants.{COMPONENTS};
ghost use Rattle.pals_model.specs.RoundTexts.{text_of, line_end, round_line, row_lines};
ghost use Rattle.pals_model.specs.DesignRules.{IsDesign};
ghost use Rattle.pals_report.specs.proof.TextPrefixes.{BeginsWith};
ghost use Rattle.pals_report.specs.proof.TapPlaces.{tap_places};
ghost use Rattle.pals_report.specs.proof.RowLines.{component_lines_from, tap_lines_from};

use crate::component_state::add_part_line;
use crate::round_parts::RoundParts;
use crate::row_tap_line::add_line_at_place;
use crate::tap_places::TapPlaces;
use itoa::Buffer;
use pals_base::{NoMemory, NodeNo};
use pals_model::{Component, Design, DesignParts};

// The line of the round itself.
pub(crate) fn add_round_line(out: &mut Vec<u8>, round: u32) -> Result<(), NoMemory>
    ensures ok { OnOk result (out.new.items ≡ out.old.items ++ round_line round ++ line_end) }
    ensures err { OnErr result (BeginsWith out.new.items out.old.items) }
{
    out.extend_from_slice(b"round ")?;
    out.extend_from_slice(Buffer::new().format(round).as_bytes())?;
    out.extend_from_slice(b"\n")
}

// A line for each component that has a part.
fn add_component_lines<P: RoundParts>(
    out: &mut Vec<u8>,
    components: &[Component],
    parts: &P,
) -> Result<(), NoMemory>
    requires { length components.now ≤ COMPONENTS }
    ensures ok { OnOk result (out.new.items
        ≡ out.old.items ++ text_of (component_lines_from (P.part_of parts.now) 0 components.now)) }
    ensures err { OnErr result (BeginsWith out.new.items out.old.items) }
{
    for (node, component) in components.iter().enumerate() {
        add_part_line(out, component, parts.part(NodeNo(node as u32)))?;
    }
    Ok(())
}

// A line for each root out port whose source has a part.
fn add_tap_lines<P: RoundParts>(
    out: &mut Vec<u8>,
    design: &DesignParts,
    places: &TapPlaces,
    parts: &P,
) -> Result<(), NoMemory>
    requires { places.now ≡ tap_places design.now.taps }
    ensures ok { OnOk result (out.new.items
        ≡ out.old.items ++ text_of (tap_lines_from design.now (P.part_of parts.now) 0 design.now.taps)) }
    ensures err { OnErr result (BeginsWith out.new.items out.old.items) }
{
    for (number, tap) in design.taps.as_slice().iter().enumerate() {
        let part = parts.part(tap.source);
        add_line_at_place(out, design, tap, places.place(number), part)?;
    }
    Ok(())
}

// The whole row.
pub(crate) fn add_lines<P: RoundParts>(
    out: &mut Vec<u8>,
    design: &Design,
    places: &TapPlaces,
    round: u32,
    parts: &P,
) -> Result<(), NoMemory>
    requires { places.now ≡ tap_places design.now.taps }
    ensures rules { IsDesign design.now }
    ensures ok { OnOk result (out.new.items
        ≡ out.old.items ++ text_of (row_lines design.now (P.part_of parts.now) round)) }
    ensures err { OnErr result (BeginsWith out.new.items out.old.items) }
{
    let design = design.parts();
    add_round_line(out, round)?;
    add_component_lines(out, design.components.as_slice(), parts)?;
    add_tap_lines(out, design, places, parts)
}
