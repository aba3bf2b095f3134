//! Clocks that are lists of readings, call by call.
use pals_base::{ItemList, NoMemory};
use pals_clock::{ClockEnd, ListClock};
use std::alloc::Global;

// A node's clock in a run of two rounds, in nanoseconds.
fn clock(alloc: Global) -> Result<ListClock, NoMemory> {
    let readings = ItemList::from_slice(alloc, &[9000000, 10000000, 18000000, 19000000])?;
    Ok(ListClock::new(readings))
}

/// Whether a fresh clock of a list has the list, and picks from its first reading on.
pub fn fresh_clock_has_no_pick(alloc: Global) -> Result<bool, NoMemory> {
    let mut clock = clock(alloc)?;
    let first = clock.wait_for(9500000);
    let mut fresh = clock.fresh(alloc)?;
    let is_same = fresh.same_list(&clock);
    let picks = [first, fresh.wait_for(9000000), clock.wait_for(9000000)];
    Ok(is_same && picks == [Ok(10000000), Ok(9000000), Ok(10000000)])
}

/// Whether a clock without a reading for a wait is unchanged by the refused wait.
pub fn refused_clock_stands_where_it_stood(alloc: Global) -> Result<bool, NoMemory> {
    let mut clock = clock(alloc)?;
    let picks = [
        clock.wait_for(18000000),
        clock.wait_for(19000001),
        clock.wait_for(18000000),
        clock.wait_for(18000001),
    ];
    Ok(picks == [Ok(18000000), Err(ClockEnd), Ok(18000000), Ok(19000000)])
}
