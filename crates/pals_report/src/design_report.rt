//! The report of an accepted design.
ghost use Rattle.std.specs.Prelude.{◌≡◌, ◌++◌, ℕ, List, OnOk, OnErr};
ghost use Rattle.pals_model.specs.RoundTexts.{text_of};
ghost use Rattle.pals_report.specs.proof.TextPrefixes.{BeginsWith};
ghost use Rattle.pals_report.specs.CheckReports.{check_lines, IsCheckReport};

use crate::design_lines::{add_components, add_feeds, add_ignored_name_lines, add_links, add_taps};
use crate::periods::{add_periods, rates};
use crate::whole_or_none;
use bound_checker::least_multiple;
use pals_base::{Nanos, NoMemory};
use pals_model::{Design, DesignParts};
use std::alloc::Global;

/// Appends the report of an accepted design: its period, the periods that its bound allows, and a line for each
/// component, link, feed, tap and ignored name. Errors: out of memory; the buffer is then unchanged.
pub fn add_check(alloc: Global, out: &mut Vec<u8>, design: &Design) -> Result<(), NoMemory>
    ensures ok { OnOk result
        ((text : List ℕ) × (out.new.items ≡ out.old.items ++ text) × IsCheckReport design.now text) }
    ensures err { OnErr result (out.new.items ≡ out.old.items) }
{
    let rates = rates(alloc, design.components())?;
    let gamma = design.gamma();
    let shortest = least_multiple(&gamma, rates.as_slice());
    let start = out.len();
    let written = add_lines(out, design.parts(), shortest);
    whole_or_none(out, start, written)
}

fn add_lines(
    out: &mut Vec<u8>,
    design: &DesignParts,
    shortest: Option<Nanos>,
) -> Result<(), NoMemory>
    ensures ok { OnOk result
        (out.new.items ≡ out.old.items ++ text_of (check_lines design.now shortest)) }
    ensures err { OnErr result (BeginsWith out.new.items out.old.items) }
{
    add_periods(out, design, shortest)?;
    add_components(out, design.components.as_slice())?;
    add_links(out, design, design.links.as_slice())?;
    add_feeds(out, design, design.feeds.as_slice())?;
    add_taps(out, design, design.taps.as_slice())?;
    add_ignored_name_lines(out, design.ignored.as_slice())
}
