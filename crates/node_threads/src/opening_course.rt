//! The course of a run before its first event.
ghost use Rattle.std.specs.Prelude.{◌≡◌, IfOk};
ghost use Rattle.pals_bus.specs.proof.OpeningNodes.{opening_bus};
ghost use Rattle.node_threads.specs.proof.SharedCourses.{AreClocksOf, IsOf};

use crate::clocks::fresh_lists;
use crate::course::SharedRun;
use pals_base::NoMemory;
use pals_bus::Bus;
use pals_clock::Clocks;
use std::alloc::Global;

/// The course of a bus before its first event, twice: one for the threads, and a spare one.
pub fn open_with_spare(
    alloc: Global,
    bus: Bus,
    clocks: Clocks,
) -> Result<(SharedRun, SharedRun), NoMemory>
    requires opening { bus ≡ opening_bus bus.run bus.codes bus.meeting }
    requires clocks { AreClocksOf bus clocks }
    ensures { IfOk result (λ both. IsOf bus clocks both.0 × IsOf bus clocks both.1) }
{
    let kept = opened_anew(alloc, &bus, &clocks)?;
    opened_beside(alloc, bus, &clocks, kept)
}

// The course of a bus before its first event, with a spare one of the same run.
fn opened_beside(
    alloc: Global,
    bus: Bus,
    clocks: &Clocks,
    kept: SharedRun,
) -> Result<(SharedRun, SharedRun), NoMemory>
    requires opening { bus ≡ opening_bus bus.run bus.codes bus.meeting }
    requires clocks { AreClocksOf bus clocks.now }
    requires kept { IsOf bus clocks.now kept }
    ensures { IfOk result (λ both. IsOf bus clocks.now both.0 × IsOf bus clocks.now both.1) }
{
    let course = opened(alloc, bus, clocks)?;
    Ok((course, kept))
}

// The course of the run of a bus before its first event.
fn opened_anew(alloc: Global, bus: &Bus, clocks: &Clocks) -> Result<SharedRun, NoMemory>
    requires { AreClocksOf bus.now clocks.now }
    ensures { IfOk result (IsOf bus.now clocks.now) }
{
    let fresh = bus.fresh(alloc)?;
    opened(alloc, fresh, clocks)
}

// The course of a bus before its first event.
fn opened(alloc: Global, bus: Bus, clocks: &Clocks) -> Result<SharedRun, NoMemory>
    requires opening { bus ≡ opening_bus bus.run bus.codes bus.meeting }
    requires clocks { AreClocksOf bus clocks.now }
    ensures { IfOk result (IsOf bus clocks.now) }
{
    let lists = fresh_lists(alloc, clocks)?;
    SharedRun::new(alloc, bus, lists)
}
