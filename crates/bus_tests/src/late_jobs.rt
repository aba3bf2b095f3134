//! Work of a node that is submitted rounds later.
use crate::checked_bus_calls::{bus_of, finish, finish_here, leaves, send, start, take_due, tells};
use case_files::example_designs::TWO_COUNTERS;
use pals_base::{Nanos, NoMemory, NodeNo};
use pals_bus::Bus;
use pals_node::Finished;
use std::alloc::Global;
use std::test::Fail;

// The two counters.
const A: NodeNo = NodeNo(0);

const B: NodeNo = NodeNo(1);

// Whether a node starts a round, whose work is not submitted.
fn begins(bus: &mut Bus, node: NodeNo, at: Nanos) -> bool {
    start(bus, node, at).is_some()
}

// Whether both counters make the rest of their first round, once the first has started, and its
// message comes.
fn make_rest(bus: &mut Bus) -> bool {
    finish_here(bus, A)
        && send(bus, A, 10_000_000)
        && begins(bus, B, 9_000_000)
        && finish_here(bus, B)
        && send(bus, B, 10_000_000)
        && take_due(bus, A, 18_000_000) == Some(Ok(()))
}

// How the second round of the first counter finishes if the work of its first round is submitted.
fn finish_with_earlier_work(bus: &mut Bus) -> Option<Finished> {
    let earlier = start(bus, A, 9_000_000)?.run();
    if !make_rest(bus) || !begins(bus, A, 18_000_000) {
        return None;
    }
    finish(bus, A, earlier)
}

// How the second round of the first counter finishes if its own work is submitted.
fn finish_with_own_work(bus: &mut Bus) -> Option<Finished> {
    if !begins(bus, A, 9_000_000) || !make_rest(bus) {
        return None;
    }
    let own = start(bus, A, 18_000_000)?.run();
    finish(bus, A, own)
}

// The results of both, and their states.
const TOLD: &str = "start p.a 0 9000000\n\
finish p.a 0\n\
send p.a 0 10000000\n\
start p.b 0 9000000\n\
finish p.b 0\n\
send p.b 0 10000000\n\
arrive p.a.i 0 18000000 kept\n\
start p.a 1 18000000\n\
finish p.a 1\n";

const LEFT: [i64; 1] = [3];

// Whether a bus has the state after the second round of the first counter.
fn is_finished(alloc: Global, bus: &Bus) -> Result<bool, NoMemory> {
    Ok(leaves(bus, A, 1, &LEFT) && tells(alloc, bus, TOLD)?)
}

// Whether the work of an earlier round is done again, and leaves what the round's own work does.
fn redoes(alloc: Global, bus: &mut Bus) -> Result<bool, NoMemory> {
    let how = finish_with_earlier_work(bus);
    Ok(how == Some(Finished::Redone) && is_finished(alloc, bus)?)
}

// Whether the round's own work is used.
fn uses(alloc: Global, bus: &mut Bus) -> Result<bool, NoMemory> {
    let how = finish_with_own_work(bus);
    Ok(how == Some(Finished::Used) && is_finished(alloc, bus)?)
}

#[test]
fn work_of_an_earlier_round_is_redone(rt: HostRuntime) -> Result<(), Fail> {
    let mut bus = bus_of(&rt, rt.alloc(), TWO_COUNTERS, 2, false)?;
    assert!(rt; redoes(rt.alloc(), &mut bus)?);
    Ok(())
}

#[test]
fn own_work_is_used(rt: HostRuntime) -> Result<(), Fail> {
    let mut bus = bus_of(&rt, rt.alloc(), TWO_COUNTERS, 2, false)?;
    assert!(rt; uses(rt.alloc(), &mut bus)?);
    Ok(())
}
