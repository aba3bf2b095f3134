//! Worked rows of the small crates, a line for each: streams of bytes, adaptors, buffers, the minimum period, alarms and
//! clocks. Each call that allocates is made once with enough memory.
use crate::{
    adaptors, alarms_and_releases, arguments, buffers, clocks, least_periods_and_multiples, streams,
};
use std::alloc::AllocError;
use std::io;

/// Writes for each row whether its answer is right.
pub fn check_rows(rt: &HostRuntime) -> io::Result<()> {
    check_streams(rt)?;
    check_numbers(rt)?;
    check_lists(rt)
}

// Writes the name of a row, and whether its answer is right.
fn write_verdict(
    rt: &HostRuntime,
    row: &str,
    is_right: Result<bool, AllocError>,
) -> io::Result<()> {
    let answer = if is_right == Ok(true) {
        "right"
    } else {
        "wrong"
    };
    println!(rt; "{row}: {answer}")
}

fn check_streams(rt: &HostRuntime) -> io::Result<()> {
    let alloc = rt.alloc();
    write_verdict(rt, "reads from memory", streams::reads_from_memory(alloc))?;
    write_verdict(rt, "reads to the end", Ok(streams::reads_to_the_end(alloc)))?;
    write_verdict(
        rt,
        "reads on behind a fault",
        streams::reads_on_behind_a_fault(alloc),
    )?;
    write_verdict(rt, "reads from std", Ok(streams::reads_from_std(alloc)))?;
    write_verdict(rt, "writes to memory", streams::writes_to_memory(alloc))?;
    write_verdict(
        rt,
        "writes to a small memory",
        streams::writes_to_a_small_memory(alloc),
    )?;
    write_verdict(rt, "writes to std", Ok(streams::writes_to_std(alloc)))?;
    write_verdict(rt, "arguments", arguments::drop_the_name(alloc))?;
    write_verdict(rt, "unread arguments", Ok(arguments::are_not_read(alloc)))
}

fn check_numbers(rt: &HostRuntime) -> io::Result<()> {
    write_verdict(rt, "alarms", Ok(alarms_and_releases::are_alarms()))?;
    write_verdict(
        rt,
        "alarms of steps",
        Ok(alarms_and_releases::are_step_alarms()),
    )?;
    write_verdict(rt, "releases", Ok(alarms_and_releases::are_releases()))?;
    write_verdict(
        rt,
        "usual periods",
        Ok(least_periods_and_multiples::are_usual_periods()),
    )?;
    write_verdict(
        rt,
        "slow periods",
        Ok(least_periods_and_multiples::are_slow_periods()),
    )?;
    write_verdict(
        rt,
        "least multiples",
        Ok(least_periods_and_multiples::are_least_multiples()),
    )?;
    write_verdict(
        rt,
        "least multiples at the ends",
        Ok(least_periods_and_multiples::are_least_multiples_at_the_ends()),
    )?;
    write_verdict(
        rt,
        "rates without a common period",
        Ok(least_periods_and_multiples::have_no_common_period()),
    )
}

fn check_lists(rt: &HostRuntime) -> io::Result<()> {
    let alloc = rt.alloc();
    write_verdict(rt, "tuples at other rates", adaptors::are_adapted(alloc))?;
    write_verdict(
        rt,
        "a full slot",
        buffers::full_slot_keeps_its_message(alloc),
    )?;
    write_verdict(
        rt,
        "a flight of three copies",
        buffers::flight_gives_its_copies(alloc),
    )?;
    write_verdict(
        rt,
        "a queue of due messages",
        buffers::queue_is_in_order_of_due_readings(alloc),
    )?;
    write_verdict(rt, "a fresh clock", clocks::fresh_clock_has_no_pick(alloc))?;
    write_verdict(
        rt,
        "a refused clock",
        clocks::refused_clock_stands_where_it_stood(alloc),
    )
}
