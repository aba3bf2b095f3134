//! The period of a design, and the periods that its bound allows.
ghost use Rattle.std.specs.Prelude.{◌≡◌, ◌++◌, codes, map, IfOk, OnOk, OnErr};
ghost use Rattle.pals_model.specs.RoundTexts.{text_of, line_end};
ghost use Rattle.pals_report.specs.proof.TextPrefixes.{BeginsWith};
ghost use Rattle.pals_report.specs.CheckReports.{rate_of, time_line, shortest_word, period_lines};

use itoa::Buffer;
use pals_base::{Nanos, NoMemory};
use pals_model::rates_and_kinds::greatest_rate;
use pals_model::{Component, DesignParts};
use std::alloc::Global;

/// Returns the rates of components, in order. Errors: out of memory.
pub fn rates(alloc: Global, components: &[Component]) -> Result<Vec<u32>, NoMemory>
    ensures { IfOk result (λ found. found.items ≡ map rate_of components.now) }
{
    let mut found = Vec::new(alloc);
    for component in components {
        found.push(component.rate)?;
    }
    Ok(found)
}

// A word and a time in nanoseconds.
#[tactic(auto, unfolding(crate::specs::CheckReports::time_line))]
fn add_time(out: &mut Vec<u8>, word: &[u8], time: u128) -> Result<(), NoMemory>
    ensures ok { OnOk result (out.new.items ≡ out.old.items ++ (time_line word.now time ++ line_end)) }
    ensures err { OnErr result (BeginsWith out.new.items out.old.items) }
{
    out.extend_from_slice(word)?;
    out.extend_from_slice(Buffer::new().format(time).as_bytes())?;
    out.extend_from_slice(b"\n")
}

// The shortest period for the rates, or the statement that there is none.
#[tactic(auto, unfolding(crate::specs::CheckReports::time_line))]
fn add_shortest(out: &mut Vec<u8>, shortest: Option<Nanos>) -> Result<(), NoMemory>
    ensures ok { OnOk result (out.new.items ≡ out.old.items ++ (codes "shortest " ++ shortest_word shortest ++ line_end)) }
    ensures err { OnErr result (BeginsWith out.new.items out.old.items) }
{
    match shortest {
        Some(period) => add_time(out, b"shortest ", u128::from(period)),
        None => out.extend_from_slice(b"shortest none\n"),
    }
}

/// Appends the lines of a design's period, of the minimum period that its bound allows, of the shortest period
/// that also suits its rates, and of its backoff. Errors: out of memory; a part of the text may then be in the
/// buffer.
pub fn add_periods(
    out: &mut Vec<u8>,
    design: &DesignParts,
    shortest: Option<Nanos>,
) -> Result<(), NoMemory>
    ensures ok { OnOk result
        (out.new.items ≡ out.old.items ++ text_of (period_lines design.now shortest)) }
    ensures err { OnErr result (BeginsWith out.new.items out.old.items) }
{
    let gamma = &design.gamma;
    let rate = greatest_rate(design.components.as_slice());
    out.extend_from_slice(b"accepted\n")?;
    add_time(out, b"period ", u128::from(design.period))?;
    add_time(out, b"least ", gamma.least_period(rate))?;
    add_shortest(out, shortest)?;
    add_time(out, b"backoff ", gamma.backoff())
}
