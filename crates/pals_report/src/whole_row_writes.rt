//! Rows, and single lines of a row, appended to a buffer entirely or not at all.
ghost use Rattle.std.specs.Prelude.{◌≡◌, ◌<◌, ◌++◌, Some, length, slice_get, OnOk, OnErr};
ghost use Rattle.pals_model.specs.declared.design.Tap.{Tap};
ghost use Rattle.pals_model.specs.declared.environment.Env.{Env};
ghost use Rattle.pals_model.specs.RoundTexts.{text_of, line_end, round_line, component_line, part_lines, tap_line};
ghost use Rattle.pals_model.specs.RoundTexts.{tap_lines, row_lines, row};
ghost use Rattle.pals_report.specs.proof.TapPlaces.{tap_places};
ghost use Rattle.pals_report.specs.proof.RowLines.{ArePartsOf};

use crate::component_state::{add_component_line, add_part_line};
use crate::round_parts::RoundParts;
use crate::row::{add_lines, add_round_line};
use crate::row_tap_line::{add_line_at_place, add_tap_line, place_of_tap};
use crate::tap_places::TapPlaces;
use crate::whole_or_none;
use pals_base::{BehaviourParts, Frame, Kind, NoMemory, PortValue, Text};
use pals_model::{Component, Design, Part, Tap};

/// Appends the line of a round. Errors: out of memory; the buffer is then unchanged.
pub fn add_round(out: &mut Vec<u8>, round: u32) -> Result<(), NoMemory>
    ensures ok { OnOk result (out.new.items ≡ out.old.items ++ round_line round ++ line_end) }
    ensures err { OnErr result (out.new.items ≡ out.old.items) }
{
    let start = out.len();
    let written = add_round_line(out, round);
    whole_or_none(out, start, written)
}

/// Appends the line of a component after a round, with its path and its part. Errors: out of memory; the buffer
/// is then unchanged.
pub fn add_part(out: &mut Vec<u8>, component: &Component, part: &Part) -> Result<(), NoMemory>
    ensures ok { OnOk result
        (out.new.items ≡ out.old.items ++ text_of (part_lines component.now (Some part.now))) }
    ensures err { OnErr result (out.new.items ≡ out.old.items) }
{
    let start = out.len();
    let written = add_part_line(out, component, Some(part));
    whole_or_none(out, start, written)
}

/// Appends the line of a component with this name, from its frame. Errors: out of memory; the buffer is then
/// unchanged.
pub fn add_frame(
    out: &mut Vec<u8>,
    name: &Text,
    behaviour: &BehaviourParts,
    frame: &Frame,
) -> Result<(), NoMemory>
    ensures ok { OnOk result
        (out.new.items ≡ out.old.items ++ component_line name.now behaviour.now frame.now ++ line_end) }
    ensures err { OnErr result (out.new.items ≡ out.old.items) }
{
    let start = out.len();
    let written = add_component_line(out, name, behaviour, frame);
    whole_or_none(out, start, written)
}

/// Appends the line of a root out port with this type and a tuple. Errors: out of memory; the buffer is then
/// unchanged.
pub fn add_tap_tuple(
    out: &mut Vec<u8>,
    kind: Kind,
    tap: &Tap,
    tuple: &[PortValue],
) -> Result<(), NoMemory>
    ensures ok { OnOk result
        (out.new.items ≡ out.old.items ++ tap_line kind tap.now tuple.now ++ line_end) }
    ensures err { OnErr result (out.new.items ≡ out.old.items) }
{
    let start = out.len();
    let written = add_tap_line(out, kind, tap, tuple);
    whole_or_none(out, start, written)
}

/// Appends the line of a root out port after a round, from its number among the taps and the part of its
/// source. Takes time linear in the number of taps. Errors: out of memory; the buffer is then unchanged.
pub fn add_tap(out: &mut Vec<u8>, design: &Design, tap: u32, part: &Part) -> Result<(), NoMemory>
    requires { tap < length design.now.taps }
    ensures ok { (shown : Tap) → slice_get design.now.taps tap ≡ Some shown
        → OnOk result (out.new.items
        ≡ out.old.items ++ text_of (tap_lines design.now tap shown (Some part.now))) }
    ensures err { OnErr result (out.new.items ≡ out.old.items) }
{
    let number = tap as usize;
    let tap = &design.taps()[number];
    let place = place_of_tap(design.taps(), number, tap.source);
    let start = out.len();
    let written = add_line_at_place(out, design.parts(), tap, place, Some(part));
    whole_or_none(out, start, written)
}

/// Appends the row of a round, from the parts of the components that are shown. Errors: out of memory; the
/// buffer is then unchanged.
pub fn add_row<P: RoundParts>(
    out: &mut Vec<u8>,
    design: &Design,
    places: &TapPlaces,
    round: u32,
    parts: &P,
) -> Result<(), NoMemory>
    requires { places.now ≡ tap_places design.now.taps }
    ensures ok { OnOk result (out.new.items
        ≡ out.old.items ++ text_of (row_lines design.now (P.part_of parts.now) round)) }
    // the parts of the synchronous composition give its row
    ensures composed { (env : Env) → ArePartsOf design.now env round (P.part_of parts.now)
        → OnOk result (out.new.items ≡ out.old.items ++ row design.now env round) }
    ensures err { OnErr result (out.new.items ≡ out.old.items) }
{
    let start = out.len();
    let written = add_lines(out, design, places, round, parts);
    whole_or_none(out, start, written)
}
