//! The verdict on a whole trace.
ghost use Rattle.std.specs.Prelude.{◌≡◌, ◌/◌, ◌^◌, ◌<◌, ◌≤◌, drop, length, IfOk};
ghost use Rattle.std.specs.Arc.{arc_value};
ghost use Rattle.pals_base.specs.declared.limits.TheConstants.{ROUNDS};
ghost use Rattle.pals_model.specs.Delays.{AreDelays};
ghost use Rattle.pals_bus.specs.proof.StepCodesOfNodes.{AreCodes};
ghost use Rattle.pals_runs.specs.declared.verdicts.Verdict.TheVariants.{Sound, Wrong};
ghost use Rattle.run_laws.specs.TraceVerdicts.{end_broken, journal_verdict, opening_audit, row_size, verdict, wrong_or};
ghost use Rattle.trace_audit.specs.declared.report.ReportEnd.TheVariants.{Whole};
ghost use Rattle.trace_audit.specs.proof.AuditInvariant.{IsReplay, audit_in};
ghost use Rattle.trace_audit.specs.proof.ReportEnds.{ReportEnds};

use crate::end_rules::end_rule;
use crate::replay::Replay;
use crate::report::{ReportEnd, read_report};
use crate::row_text::row_size;
use crate::told;
use pals_base::{ItemList, NoMemory, Text};
use pals_bus::Bus;
use pals_model::{Delays, Design, Env};
use pals_runs::{TraceRule, Verdict};
use scenario_values::DesignNames;
use std::alloc::Global;
use std::sync::Arc;
use step_code::Code;

/// The verdict on the lines of a trace of a run: of a design with the codes of its components, for this many
/// rounds, with these values of the root in ports and these delays of the links. Each line is read once.
pub fn audit(
    alloc: Global,
    design: Arc<Design>,
    codes: ItemList<Code>,
    env: Env,
    rounds: u32,
    delays: Delays,
    trace: &[Text],
) -> Result<Verdict, NoMemory>
    requires some { 1 ≤ rounds }
    requires most { rounds ≤ ROUNDS }
    requires delays { AreDelays (length (arc_value design).links) delays }
    requires codes { AreCodes (arc_value design) codes }
    requires few { length trace.now < 2 ^ 32 }
    ensures { IfOk result (λ v. v ≡ verdict (record {
      design = arc_value design;
      env = env;
      rounds = rounds;
      delays = delays;
    }) trace.now) }
{
    match read_report(alloc, &design, &env, trace)? {
        ReportEnd::Whole(size) => {
            let mut replay = open(alloc, &design, codes, env, rounds, delays)?;
            audit_behind(alloc, &design, &mut replay, trace, size)
        }
        ReportEnd::Wrong(index) => Ok(wrong(index, TraceRule::Row)),
    }
}

// A run before its first event, to be done again.
fn open(
    alloc: Global,
    design: &Arc<Design>,
    codes: ItemList<Code>,
    env: Env,
    rounds: u32,
    delays: Delays,
) -> Result<Replay, NoMemory>
    requires some { 1 ≤ rounds }
    requires most { rounds ≤ ROUNDS }
    requires delays { AreDelays (length (arc_value design.now).links) delays }
    requires codes { AreCodes (arc_value design.now) codes }
    ensures kept { IfOk result IsReplay }
    ensures run { IfOk result (λ r. r.bus.run
        ≡ record { design = arc_value design.now; env = env; rounds = rounds; delays = delays }) }
    ensures value { IfOk result (λ r. audit_in r ≡ opening_audit r.bus.run) }
{
    let again = Arc::try_clone(design)?;
    let bus = Bus::new(alloc, again, codes, env, rounds, delays, false)?;
    Replay::new(alloc, bus)
}

// The verdict on the lines after a report of this size.
fn audit_behind(
    alloc: Global,
    design: &Design,
    replay: &mut Replay,
    trace: &[Text],
    size: usize,
) -> Result<Verdict, NoMemory>
    requires kept { IsReplay replay.old }
    requires design { design.now ≡ replay.old.bus.run.design }
    requires few { length trace.now < 2 ^ 32 }
    requires within { size ≤ length trace.now }
    ensures { IfOk result (λ v. v ≡ journal_verdict replay.old.bus.run (size / row_size design.now) size
        (audit_in replay.old) (drop size trace.now)) }
{
    let names = DesignNames::new(alloc, design)?;
    audit_journal(replay, &names, trace, size, size / row_size(design))
}

// The verdict on the lines from an index on, after a report with this number of rows.
fn audit_journal(
    replay: &mut Replay,
    names: &DesignNames<'_>,
    trace: &[Text],
    start: usize,
    rows: usize,
) -> Result<Verdict, NoMemory>
    requires kept { IsReplay replay.old }
    requires names { names.now ≡ replay.old.bus.run.design }
    requires few { length trace.now < 2 ^ 32 }
    requires start { start ≤ length trace.now }
    requires rows { rows ≤ start }
    ensures { IfOk result (λ v. v ≡ journal_verdict replay.old.bus.run rows start (audit_in replay.old)
        (drop start trace.now)) }
{
    for index in start..trace.len() {
        let told = told(names, trace[index].as_str());
        if let Some(rule) = replay.audit_line(told)? {
            return Ok(wrong(index, rule));
        }
    }
    Ok(end_verdict(replay, trace.len(), rows))
}

// The verdict at the end of a trace of this length, none of whose lines breaks a rule.
fn end_verdict(replay: &Replay, length: usize, rows: usize) -> Verdict
    requires length { length < 2 ^ 32 }
    requires rows { rows < 2 ^ 32 }
    ensures { result ≡ wrong_or length (end_broken replay.now.bus.run rows (audit_in replay.now))
        (Sound rows replay.now.bus.state.stop) }
{
    match end_rule(replay, rows) {
        Some(rule) => wrong(length, rule),
        None => Verdict::Sound {
            rounds: rows as u32,
            stop: replay.bus.stop(),
        },
    }
}

// The verdict on a trace whose line of this index breaks a rule.
fn wrong(index: usize, rule: TraceRule) -> Verdict
    requires { index < 2 ^ 32 }
    ensures { result ≡ Wrong index rule }
{
    Verdict::Wrong {
        index: index as u32,
        rule,
    }
}
