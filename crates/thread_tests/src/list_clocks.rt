//! Tests of runs in threads in which each node's clock is a list, some of them too short.
ghost use Rattle.std.specs.Prelude.{IfOk};
ghost use Rattle.std.specs.List.Sorted.{IsNonDecreasing};
ghost use Rattle.pals_clock.specs.ClockStates.{AreReadings};

use crate::bus_runs::{bus_of, tells};
use case_files::example_designs::TWO_COUNTERS;
use node_threads::{Host, NoGate, ThreadStarter};
use pals_base::{ItemList, Nanos, NoMemory};
use pals_clock::{Clocks, ListClock};
use std::alloc::Global;
use std::process::Abort;
use std::sync::Wait;
use std::test::Fail;
use std::thread::Threads;

// A clock that shows all targets of a counter.
fn whole(alloc: Global) -> Result<ListClock, NoMemory> {
    let readings = ItemList::from_slice(
        alloc,
        &[
            9_000_000, 10_000_000, 18_000_000, 19_000_000, 27_000_000, 28_000_000,
        ],
    )?;
    Ok(ListClock::new(readings))
}

fn one_reading(alloc: Global) -> Result<ListClock, NoMemory> {
    let readings = ItemList::from_slice(alloc, &[9_000_000])?;
    Ok(ListClock::new(readings))
}

fn equal_readings(alloc: Global) -> Result<ListClock, NoMemory> {
    let readings = ItemList::from_slice(alloc, &[9_000_000, 9_000_000, 9_000_000, 9_000_000])?;
    Ok(ListClock::new(readings))
}

// A million readings, 30 ns apart.
fn many_readings(alloc: Global) -> Result<ListClock, NoMemory> {
    let readings = steady(alloc)?;
    Ok(ListClock::new(readings))
}

fn steady(alloc: Global) -> Result<ItemList<Nanos>, NoMemory>
    ensures order { IfOk result IsNonDecreasing }
    ensures range { IfOk result AreReadings }
{
    let mut readings = ItemList::new(alloc);
    for number in 0u64..1_000_000 {
        readings.push(number * 30)?;
    }
    Ok(readings)
}

// Whether a run of two counters with these clocks has this outcome.
fn tells_by<R: Threads + Wait + Sync + Abort>(
    rt: &R,
    alloc: Global,
    clocks: (ListClock, ListClock),
    wanted: &str,
) -> Result<bool, Fail> {
    let bus = bus_of(rt, alloc, TWO_COUNTERS, false)?;
    let mut lists = ItemList::new(alloc);
    lists.push(clocks.0)?;
    lists.push(clocks.1)?;
    let host = Host {
        runtime: rt,
        starter: &mut ThreadStarter,
        gate: &NoGate,
    };
    Ok(tells(host, alloc, &bus, Clocks::Lists(lists), wanted)?)
}

const ENDED_AT_ONCE: &str = "clock ended 9000000\nclock ended 9000000\n";

#[test]
fn empty_lists_end_at_once(rt: HostRuntime) -> Result<(), Fail> {
    let alloc = rt.alloc();
    let clocks = (
        ListClock::new(ItemList::new(alloc)),
        ListClock::new(ItemList::new(alloc)),
    );
    assert!(rt; tells_by(&rt, alloc, clocks, ENDED_AT_ONCE)?);
    Ok(())
}

const NOT_SENT: &str = "round 0\n\
p.a s x=1\n\
p.b s x=1\n\
clock ended 10000000\n\
stopped\n";

#[test]
fn one_reading_stops_the_target(rt: HostRuntime) -> Result<(), Fail> {
    let alloc = rt.alloc();
    let clocks = (one_reading(alloc)?, whole(alloc)?);
    assert!(rt; tells_by(&rt, alloc, clocks, NOT_SENT)?);
    Ok(())
}

const NONE_SENT: &str = "round 0\n\
p.a s x=1\n\
p.b s x=1\n\
clock ended 10000000\n\
clock ended 10000000\n";

#[test]
fn equal_readings_end_before_the_send(rt: HostRuntime) -> Result<(), Fail> {
    let alloc = rt.alloc();
    let clocks = (equal_readings(alloc)?, equal_readings(alloc)?);
    assert!(rt; tells_by(&rt, alloc, clocks, NONE_SENT)?);
    Ok(())
}

const COUNTED: &str = "round 0\n\
p.a s x=1\n\
p.b s x=1\n\
round 1\n\
p.a s x=3\n\
p.b s x=3\n\
round 2\n\
p.a s x=7\n\
p.b s x=7\n\
finished\nfinished\n";

#[test]
fn million_readings_are_picked_from(rt: HostRuntime) -> Result<(), Fail> {
    let alloc = rt.alloc();
    let clocks = (many_readings(alloc)?, many_readings(alloc)?);
    assert!(rt; tells_by(&rt, alloc, clocks, COUNTED)?);
    Ok(())
}
