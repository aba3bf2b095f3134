//! The line of a root out port: its name, and the whole tuple of its source.
ghost use Rattle.std.specs.Prelude.{◌≡◌, ◌++◌, [], OnOk, OnErr, slice_index_or, option_copied};
ghost use Rattle.pals_model.specs.RoundTexts.{text_of, line_end, tap_line, taps_before};
ghost use Rattle.pals_report.specs.proof.TextPrefixes.{BeginsWith};
ghost use Rattle.pals_report.specs.proof.RowLines.{lines_at_place};

use crate::value::add_tuple;
use pals_base::{Kind, NoMemory, NodeNo, PortValue, Tuple};
use pals_model::{DesignParts, Part, Tap};

// The index of a tap among the taps with the same source: the number of earlier taps with that source.
pub(crate) fn place_of_tap(taps: &[Tap], number: usize, source: NodeNo) -> usize
    ensures { result ≡ taps_before taps.now number source.0 }
{
    taps.iter()
        .take(number)
        .filter(|tap| tap.source.0 == source.0)
        .count()
}

// The tuple at an index; empty past the last one.
fn tuple_at(tuples: &[Tuple], place: usize) -> &[PortValue]
    ensures { result.now ≡ slice_index_or tuples.now place [] }
{
    match tuples.get(place) {
        Some(tuple) => tuple.as_slice(),
        None => &[],
    }
}

// The line of a root out port with this type and this tuple.
pub(crate) fn add_tap_line(
    out: &mut Vec<u8>,
    kind: Kind,
    tap: &Tap,
    tuple: &[PortValue],
) -> Result<(), NoMemory>
    ensures ok { OnOk result
        (out.new.items ≡ out.old.items ++ tap_line kind tap.now tuple.now ++ line_end) }
    ensures err { OnErr result (BeginsWith out.new.items out.old.items) }
{
    out.extend_from_slice(b"out ")?;
    out.extend_from_slice(tap.name.as_bytes())?;
    out.extend_from_slice(b" ")?;
    add_tuple(out, kind, tuple)?;
    out.extend_from_slice(b"\n")
}

// The line of a root out port, if its source has a part. The index is the tap's among the taps with the same
// source.
pub(crate) fn add_line_at_place(
    out: &mut Vec<u8>,
    design: &DesignParts,
    tap: &Tap,
    place: usize,
    part: Option<&Part>,
) -> Result<(), NoMemory>
    ensures ok { OnOk result (out.new.items
        ≡ out.old.items ++ text_of (lines_at_place design.now place tap.now (option_copied part.entry))) }
    ensures err { OnErr result (BeginsWith out.new.items out.old.items) }
{
    match part {
        Some(part) => {
            let kind = design.out_kind(tap.source, tap.out_port);
            add_tap_line(out, kind, tap, tuple_at(part.outs.as_slice(), place))
        }
        None => Ok(()),
    }
}
