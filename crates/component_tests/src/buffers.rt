//! Slots, flights and queues of due messages, call by call.
use link_buffers::{DueEntry, DueQueue, Flight, Slot};
use pals_base::{ItemList, LinkNo, NoMemory, PortValue, Tuple};
use std::alloc::Global;

// A message of one value.
fn message(alloc: Global, value: i64) -> Result<Tuple, NoMemory> {
    ItemList::from_slice(alloc, &[PortValue::Present(value)])
}

// The value of a message of one value.
fn value(tuple: Option<Tuple>) -> Option<i64> {
    match tuple?.get(0) {
        Some(&PortValue::Present(value)) => Some(value),
        _ => None,
    }
}

fn entry(due: u64, link: u32, round: u32) -> DueEntry {
    DueEntry {
        due,
        link: LinkNo(link),
        round,
    }
}

/// Whether a full slot keeps its message and returns the new one.
pub fn full_slot_keeps_its_message(alloc: Global) -> Result<bool, NoMemory> {
    let first = message(alloc, 1)?;
    let second = message(alloc, 2)?;
    let mut slot = Slot::new();
    let put = [value(slot.slot_put(first)), value(slot.slot_put(second))];
    let was_full = slot.is_full();
    let taken = value(slot.slot_take());
    Ok(put == [None, Some(2)] && was_full && taken == Some(1) && !slot.is_full())
}

// Three copies, of the rounds 0, 1 and 0.
fn three_copies(alloc: Global) -> Result<Flight, NoMemory> {
    let first = message(alloc, 10)?;
    let second = message(alloc, 11)?;
    let third = message(alloc, 12)?;
    let mut flight = Flight::new(alloc)?;
    flight.reserve(3)?;
    flight.flight_add(0, Some(5), first);
    flight.flight_add(1, Some(3), second);
    flight.flight_add(0, Some(9), third);
    Ok(flight)
}

fn dues(flight: &Flight) -> [Option<u32>; 3] {
    [
        flight.flight_due(2),
        flight.flight_due(4),
        flight.flight_due(5),
    ]
}

// The values of the copies of these rounds, as they are taken out.
fn taken(flight: &mut Flight, rounds: [u32; 4]) -> [Option<i64>; 4] {
    let mut values = [None; 4];
    for at in 0..4 {
        values[at] = value(flight.flight_take(rounds[at]));
    }
    values
}

/// Whether a flight of three copies knows which are due, and gives each once.
pub fn flight_gives_its_copies(alloc: Global) -> Result<bool, NoMemory> {
    let mut flight = three_copies(alloc)?;
    let dues = dues(&flight);
    let values = taken(&mut flight, [1, 0, 0, 0]);
    Ok(
        dues == [None, Some(1), Some(0)]
            && values == [Some(11), Some(10), Some(12), None]
            && flight.flight_oldest(1).is_none(),
    )
}

// A queue of three entries.
fn three_entries(alloc: Global) -> Result<DueQueue, NoMemory> {
    let mut queue = DueQueue::new(alloc)?;
    queue.reserve(3)?;
    queue.add(entry(9, 0, 2));
    queue.add(entry(5, 1, 0));
    queue.add(entry(3, 2, 1));
    Ok(queue)
}

/// Whether a queue is in order of due readings and keeps equal entries apart.
pub fn queue_is_in_order_of_due_readings(alloc: Global) -> Result<bool, NoMemory> {
    let mut queue = three_entries(alloc)?;
    let few = queue.due_count(5);
    queue.reserve(1)?;
    queue.add(entry(5, 1, 0));
    let more = queue.due_count(5);
    let first = queue.get(0);
    let removed = [
        queue.remove(entry(5, 1, 0)),
        queue.remove(entry(5, 1, 0)),
        queue.remove(entry(5, 1, 0)),
    ];
    let left = [first, queue.get(1), queue.get(2)];
    Ok(
        [few, more] == [2, 3]
            && removed == [true, true, false]
            && left == [Some(entry(3, 2, 1)), Some(entry(9, 0, 2)), None],
    )
}
