//! The rule that a trace breaks at its end: a stop that is owed, nodes that are not done, or another number of rows
//! than of finished rounds.
ghost use Rattle.std.specs.Prelude.{◌≡◌};
ghost use Rattle.std.specs.List.{list_all};
ghost use Rattle.bus_machine.specs.Nodes.{NodeState};
ghost use Rattle.bus_machine.specs.BusStates.{finished_by_all};
ghost use Rattle.run_laws.specs.TraceVerdicts.{end_broken, is_done};
ghost use Rattle.trace_audit.specs.proof.AuditInvariant.{audit_in};

use crate::replay::Replay;
use pals_base::NodeNo;
use pals_bus::Bus;
use pals_runs::{Phase, TraceRule};

/// The rule that is violated at the end, after a report with this number of rows; `None` if the end is sound.
pub fn end_rule(replay: &Replay, rows: usize) -> Option<TraceRule>
    ensures { result ≡ end_broken replay.now.bus.run rows (audit_in replay.now) }
{
    if replay.owed.is_some() {
        return Some(TraceRule::Stop);
    }
    if replay.bus.stop().is_none() && !all_done(&replay.bus) {
        return Some(TraceRule::Unfinished);
    }
    if rows == finished_by_all(&replay.bus) as usize {
        None
    } else {
        Some(TraceRule::Count)
    }
}

// Whether all nodes are done.
fn all_done(bus: &Bus) -> bool
    ensures { result ≡ list_all (λ (n : NodeState). is_done n.phase) bus.now.state.nodes }
{
    bus.agreement();
    for node in 0..bus.design().components().len() {
        if !is_done(bus.phase(NodeNo(node as u32))) {
            return false;
        }
    }
    true
}

fn is_done(phase: Phase) -> bool
    ensures { result ≡ is_done phase }
{
    match phase {
        Phase::Waiting | Phase::Running(_) | Phase::Between(_) | Phase::Holding => false,
        Phase::Done => true,
    }
}

// How many rounds all nodes have finished: without nodes, all of the run.
fn finished_by_all(bus: &Bus) -> u32
    ensures { result ≡ finished_by_all bus.now.run bus.now.state }
{
    bus.agreement();
    let mut rounds = bus.rounds();
    for node in 0..bus.design().components().len() {
        rounds = rounds.min(bus.finished(NodeNo(node as u32)));
    }
    rounds
}
