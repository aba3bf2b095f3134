//! The line of a run whose clock ends, and the line of a verdict on a trace.
ghost use Rattle.std.specs.Prelude.{◌≡◌, ◌++◌, OnOk, OnErr};
ghost use Rattle.pals_model.specs.RoundTexts.{line_end};
ghost use Rattle.pals_report.specs.ClockEndsAndVerdicts.{clock_end_line, rule_word, verdict_line};

use crate::line_word::{LineWord, add_line, link_word, node_word};
use pals_base::{Nanos, NoMemory, NodeNo};
use pals_model::{Design, DesignParts};
use pals_runs::{Stop, TraceRule, Verdict};

/// Appends the line of a node whose scripted clock has no reading for its next wake-up time, in nanoseconds.
/// Errors: out of memory; the buffer is then unchanged.
pub fn add_clock_end_line(
    out: &mut Vec<u8>,
    design: &Design,
    node: NodeNo,
    target: Nanos,
) -> Result<(), NoMemory>
    ensures ok { OnOk result (out.new.items ≡ out.old.items ++ clock_end_line design.now node.0 target ++ line_end) }
    ensures err { OnErr result (out.new.items ≡ out.old.items) }
{
    let clock = LineWord::Bytes(b"clock");
    let ended = LineWord::Bytes(b"ended");
    let node = node_word(design.parts(), node);
    add_line(out, &[clock, ended, node, LineWord::Number(target)])
}

fn rule_word(rule: TraceRule) -> &'static [u8]
    ensures { result.now ≡ rule_word rule }
{
    match rule {
        TraceRule::Row => b"row",
        TraceRule::Text => b"text",
        TraceRule::Order => b"order",
        TraceRule::Reading => b"reading",
        TraceRule::Alarm => b"alarm",
        TraceRule::Release => b"release",
        TraceRule::Due => b"due",
        TraceRule::Stop => b"stop",
        TraceRule::Unfinished => b"unfinished",
        TraceRule::Count => b"count",
    }
}

// The line of a sound trace with this number of rounds.
fn add_sound(
    out: &mut Vec<u8>,
    design: &DesignParts,
    rounds: u32,
    stop: Option<Stop>,
) -> Result<(), NoMemory>
    ensures ok { OnOk result (out.new.items ≡ out.old.items ++ verdict_line design.now (Verdict.Sound rounds stop)
        ++ line_end) }
    ensures err { OnErr result (out.new.items ≡ out.old.items) }
{
    let first = LineWord::Bytes(b"sound");
    let rounds_word = LineWord::Bytes(b"rounds");
    let rounds = LineWord::Number(u64::from(rounds));
    let stop_word = LineWord::Bytes(b"stop");
    match stop {
        None => add_line(
            out,
            &[
                first,
                rounds_word,
                rounds,
                stop_word,
                LineWord::Bytes(b"none"),
            ],
        ),
        Some(Stop::Missed { link, round, .. } | Stop::Early { link, round, .. }) => {
            let link = link_word(design, link);
            let round = LineWord::Number(u64::from(round));
            add_line(out, &[first, rounds_word, rounds, stop_word, link, round])
        }
    }
}

/// Appends the line of a verdict on a trace. Errors: out of memory; the buffer is then unchanged.
pub fn add_verdict(out: &mut Vec<u8>, design: &Design, verdict: &Verdict) -> Result<(), NoMemory>
    ensures ok { OnOk result (out.new.items ≡ out.old.items ++ verdict_line design.now verdict.now ++ line_end) }
    ensures err { OnErr result (out.new.items ≡ out.old.items) }
{
    match *verdict {
        Verdict::Sound { rounds, stop } => add_sound(out, design.parts(), rounds, stop),
        Verdict::Wrong { index, rule } => {
            let index = LineWord::Number(u64::from(index));
            let rule = LineWord::Bytes(rule_word(rule));
            add_line(out, &[LineWord::Bytes(b"wrong"), index, rule])
        }
    }
}
