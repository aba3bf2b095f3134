//! The text of a run.
ghost use Rattle.std.specs.Prelude.{◌≡◌, ◌++◌, [], if◌then◌else◌, IfOk};
ghost use Rattle.pals_model.specs.RoundTexts.{line_end, text_of};
ghost use Rattle.pals_clock.specs.declared.clock.Clocks.{Clocks};
ghost use Rattle.pals_report.specs.ClockEndsAndVerdicts.{clock_end_line};
ghost use Rattle.pals_bus.specs.BusValues.{BusValue};
ghost use Rattle.loose_world.specs.proof.FinishedRows.{common_lines};
ghost use Rattle.node_threads.specs.proof.NodeEndsAndOutcomes.{IsOutcome};
ghost use Rattle.run_laws.specs.proof.RunTraces.{AreReadings};
ghost use Rattle.run_texts.specs.RunTexts.{TellsRun};
ghost use Rattle.run_texts.specs.proof.RunReports.{journal_lines};

use crate::first_clock_end::first_ended;
use loose_world::{add_common_rows, add_journal};
use node_threads::RunEnd;
use pals_base::{Nanos, NoMemory, NodeNo};
use pals_bus::Bus;
use pals_report::add_clock_end_line;
use run_laws::laws::clauses_are_kept;
use std::alloc::Global;

/// The report on a run.
#[derive(Drop)]
pub enum RunReport {
    /// All nodes are done: the rows of all rounds, followed by the journal if a trace is requested.
    Completed(Vec<u8>),
    /// A missed or an early input stopped the nodes: the rows of the rounds that all nodes have finished,
    /// and the journal, which ends with the stop.
    Stopped(Vec<u8>),
    /// Each node is done or its clock has ended: the line of the first whose clock ended.
    ClockEnded(Vec<u8>),
}

/// Reports the outcome of a run: the rows of the rounds that all nodes have finished, with the journal at a stop or if
/// a trace is requested; or, if clocks ended before the nodes were done, the line of the first of them. Fails if memory
/// runs out, or if a node of the run ran out of memory.
pub fn tell_run(alloc: Global, end: &RunEnd, trace: bool) -> Result<RunReport, NoMemory>
    ensures { IfOk result (λ told. (bus : BusValue) (clocks : Clocks) → IsOutcome bus clocks end.now.bus end.now.ends
        → AreReadings clocks → TellsRun bus.run clocks trace told) }
{
    let bus = &end.bus;
    bus.agreement();
    if bus.stop().is_some() {
        return Ok(RunReport::Stopped(traced_text(alloc, bus, true)?));
    }
    match first_ended(end.ends.as_slice())? {
        Some((node, target)) => Ok(RunReport::ClockEnded(clock_end_text(
            alloc, bus, node, target,
        )?)),
        None => Ok(RunReport::Completed(traced_text(alloc, bus, trace)?)),
    }
}

// The rows of the rounds that all nodes have finished, and the journal if a trace is requested.
fn traced_text(alloc: Global, bus: &Bus, trace: bool) -> Result<Vec<u8>, NoMemory>
    ensures { IfOk result (λ text. text.items ≡ text_of (common_lines bus.now)
        ++ (if trace then journal_lines bus.now else [])) }
{
    let mut text = Vec::new(alloc);
    add_common_rows(alloc, &mut text, bus)?;
    if trace {
        add_journal(&mut text, bus)?;
    }
    Ok(text)
}

// The line of a node whose clock ended.
fn clock_end_text(
    alloc: Global,
    bus: &Bus,
    node: NodeNo,
    target: Nanos,
) -> Result<Vec<u8>, NoMemory>
    ensures { IfOk result (λ text. text.items ≡ clock_end_line bus.now.run.design node.0 target ++ line_end) }
{
    let mut text = Vec::new(alloc);
    add_clock_end_line(&mut text, bus.design(), node, target)?;
    Ok(text)
}
