//! Tests of a node, call by call, in worked rows.
ghost use Rattle.std.specs.Prelude.{◌≡◌, ◌≤◌, IfOk};
ghost use Rattle.pals_base.specs.declared.limits.TheConstants.{ROUNDS};

use crate::accepted_design::design_of;
use case_files::example_designs::{TURN, TWO_COUNTERS};
use pals_base::{Nanos, NodeNo, PortValue};
use pals_model::Design;
use pals_node::{FinishEnd, Finished, Job, Node, NodePlan, SendEnd, StartEnd, StepEnd};
use pals_runs::Phase;
use std::alloc::Global;
use std::process::Abort;
use std::sync::Arc;
use std::test::Fail;
use step_compiler::compile;

// The plan of a node of a design.
fn plan_of(rt: &impl Abort, alloc: Global, design: &Design, node: u32) -> Result<NodePlan, Fail> {
    let Some(component) = design.components().get(node as usize) else {
        panic!(rt; "the design has no such node");
    };
    let code = compile(alloc, &component.behaviour)?;
    Ok(NodePlan::new(alloc, design, NodeNo(node), code)?)
}

// A node of a plan, before its first round, of a run of `rounds` rounds.
fn node_of(alloc: Global, plan: NodePlan, rounds: u32) -> Result<Node, Fail>
    requires some { 1 ≤ rounds }
    requires most { rounds ≤ ROUNDS }
    ensures { IfOk result (λ node. node.rounds ≡ rounds) }
{
    Ok(Node::new(alloc, Arc::new(alloc, plan)?, rounds)?)
}

// A node of the design of a text, before its first round, of a run of `rounds` rounds.
fn opening_node(
    rt: &impl Abort,
    alloc: Global,
    text: &str,
    node: u32,
    rounds: u32,
) -> Result<Node, Fail>
    requires some { 1 ≤ rounds }
    requires most { rounds ≤ ROUNDS }
    ensures { IfOk result (λ node. node.rounds ≡ rounds) }
{
    let design = design_of(rt, alloc, text)?;
    let plan = plan_of(rt, alloc, &design, node)?;
    node_of(alloc, plan, rounds)
}

// A call at a reading, and its expected result.
#[derive(Clone, Copy)]
enum NodeRow {
    /// A start that gives a job, which is run and used.
    Start(Nanos),
    /// The step of this number that gives a job, which is run and used.
    Step(u32, Nanos),
    /// A send of one message.
    Send(Nanos, &'static [PortValue]),
    NoStart(Nanos, StartEnd),
    NoStep(Nanos, StepEnd),
    NoSend(Nanos, SendEnd),
    /// How many rounds the node has started, its phase, and the reading that it waits for.
    Stands(u32, Phase, Option<Nanos>),
}

// The calls of a table on a node have the results of the table.
fn assert_rows(rt: &impl Abort, node: &mut Node, rows: &[NodeRow]) -> Result<(), Fail> {
    for row in rows {
        assert_row(rt, node, *row)?;
    }
    Ok(())
}

fn assert_row(rt: &impl Abort, node: &mut Node, row: NodeRow) -> Result<(), Fail> {
    match row {
        NodeRow::Start(at) => {
            let job = node.start(&[], Some(at))?;
            assert_used(rt, node, job, 0)
        }
        NodeRow::Step(step, at) => {
            let job = node.step(Some(at))?;
            assert_used(rt, node, job, step)
        }
        NodeRow::Send(at, message) => assert_sent(rt, node, at, message),
        NodeRow::NoStart(at, end) => {
            assert_no_start(rt, node, at, end);
            Ok(())
        }
        NodeRow::NoStep(at, end) => {
            assert_no_step(rt, node, at, end);
            Ok(())
        }
        NodeRow::NoSend(at, end) => {
            assert_no_send(rt, node, at, end);
            Ok(())
        }
        NodeRow::Stands(count, phase, target) => {
            assert_eq!(rt; node.count(), count);
            assert_eq!(rt; node.phase(), phase);
            assert_eq!(rt; node.target(), target);
            Ok(())
        }
    }
}

// While the job of a step is out no other is given, and it is used once.
fn assert_used(rt: &impl Abort, node: &mut Node, job: Job, step: u32) -> Result<(), Fail> {
    assert_eq!(rt; job.step(), step);
    assert_no_start(rt, node, u64::MAX, StartEnd::Busy);
    assert_no_step(rt, node, u64::MAX, StepEnd::NotBetween);
    assert_eq!(rt; node.finish(job.run())?, Finished::Used);
    assert_eq!(rt; node.finish_here(), Err(FinishEnd::NotRunning));
    Ok(())
}

fn assert_sent(
    rt: &impl Abort,
    node: &mut Node,
    at: Nanos,
    message: &[PortValue],
) -> Result<(), Fail> {
    let sent = node.send(Some(at))?;
    assert_eq!(rt; sent.len(), 1);
    assert_eq!(rt; sent[0].as_slice(), message);
    Ok(())
}

fn assert_no_start(rt: &impl Abort, node: &mut Node, at: Nanos, end: StartEnd) {
    assert_eq!(rt; node.start(&[], Some(at)).err(), Some(end));
}

fn assert_no_step(rt: &impl Abort, node: &mut Node, at: Nanos, end: StepEnd) {
    assert_eq!(rt; node.step(Some(at)).err(), Some(end));
}

fn assert_no_send(rt: &impl Abort, node: &mut Node, at: Nanos, end: SendEnd) {
    assert_eq!(rt; node.send(Some(at)).err(), Some(end));
}

const COUNTER: [NodeRow; 7] = [
    NodeRow::NoStart(8_999_999, StartEnd::NotYet { alarm: 9_000_000 }),
    NodeRow::NoSend(8_999_999, SendEnd::NotFinished),
    NodeRow::Start(9_000_000),
    NodeRow::NoSend(
        9_999_999,
        SendEnd::NotYet {
            release: 10_000_000,
        },
    ),
    NodeRow::Send(10_000_000, &[PortValue::Present(1)]),
    NodeRow::NoStart(18_000_000, StartEnd::Over),
    NodeRow::Stands(1, Phase::Done, None),
];

#[test]
fn counter_starts_and_sends_in_time(rt: HostRuntime) -> Result<(), Fail> {
    let mut node = opening_node(&rt, rt.alloc(), TWO_COUNTERS, 0, 1)?;
    assert_rows(&rt, &mut node, &COUNTER)
}

const MISSED_START: [NodeRow; 4] = [
    NodeRow::Start(9_000_000),
    NodeRow::Send(10_000_000, &[PortValue::Present(1)]),
    NodeRow::NoStart(18_000_000, StartEnd::Missed { port: 0 }),
    NodeRow::Stands(1, Phase::Waiting, Some(18_000_000)),
];

// The calls of a table on a fresh node, of the run of a node, have the results of the table.
fn assert_fresh_rows(
    rt: &impl Abort,
    alloc: Global,
    node: &Node,
    rows: &[NodeRow],
) -> Result<(), Fail>
    requires { 1 ≤ node.now.rounds }
{
    let mut fresh = node.fresh(alloc)?;
    assert_rows(rt, &mut fresh, rows)
}

#[test]
fn counter_misses_a_message(rt: HostRuntime) -> Result<(), Fail> {
    let node = opening_node(&rt, rt.alloc(), TWO_COUNTERS, 1, 2)?;
    assert_fresh_rows(&rt, rt.alloc(), &node, &MISSED_START)
}

const SURFACE: [NodeRow; 10] = [
    NodeRow::Start(20_000_000),
    NodeRow::NoStep(24_999_999, StepEnd::NotYet { alarm: 25_000_000 }),
    NodeRow::Step(1, 25_000_000),
    NodeRow::Step(2, 30_000_000),
    NodeRow::NoSend(
        29_999_999,
        SendEnd::NotYet {
            release: 30_000_000,
        },
    ),
    NodeRow::Send(
        30_000_000,
        &[
            PortValue::Present(0),
            PortValue::Present(0),
            PortValue::Present(0),
            PortValue::Absent,
        ],
    ),
    NodeRow::Stands(1, Phase::Between(3), Some(35_000_000)),
    NodeRow::Step(3, 35_000_000),
    NodeRow::NoStart(40_000_000, StartEnd::Over),
    NodeRow::Stands(1, Phase::Done, None),
];

#[test]
fn surface_sends_three_of_four_steps(rt: HostRuntime) -> Result<(), Fail> {
    let mut node = opening_node(&rt, rt.alloc(), TURN, 3, 1)?;
    assert_rows(&rt, &mut node, &SURFACE)
}
