//! The copies of a flight, kept by round.
ghost use Rattle.std.specs.Prelude.{◌≡◌, ◌+◌, ◌^◌, ◌<◌, ◌≤◌, nat_lt, false, [], ◌++◌, length, take, drop, filter};
ghost use Rattle.std.specs.Prelude.{find, IfNone, IfSome, OnOk, option_copied, option_map, slice_get, slice_index_or};
ghost use Rattle.std.specs.Prelude.{slice_set};
ghost use Rattle.std.specs.List.{list_any};
ghost use Rattle.std.specs.Option.{option_map_or};
ghost use Rattle.circular_buffer.specs.Buffer.{buffer};
ghost use Rattle.link_buffers.specs.declared.copies_by_round.RoundCopies.{RoundCopies as Entry};
ghost use Rattle.link_buffers.specs.proof.BinarySearch.{IsFirstToFail};
ghost use Rattle.link_buffers.specs.proof.Flights.{is_due};
ghost use Rattle.link_buffers.specs.proof.CopiesByRound.{is_for, copies_of, AreRising, HaveSameCopies, HaveSameOthers};
ghost use Rattle.link_buffers.specs.proof.CopiesByRound.{has_due, has_copies, has_copies_for};

use crate::binary_search::partition_point;
use crate::copy_nodes::{CopyList, append, split_first};
use crate::ring_insertion_and_removal::{put_at, put_last, standing_at};
use circular_buffer::HeapCircularBuffer;
use pals_base::{Nanos, NoMemory};
use pals_model::FlightCopy;

/// The copies of a round, from the oldest to the newest.
#[derive(Drop)]
pub struct RoundCopies {
    pub round: u32,
    pub copies: CopyList,
}

/// The rounds of a flight, in rising order. A round without copies may be among them.
pub type Rounds = HeapCircularBuffer<RoundCopies>;

/// Makes room for `places` further rounds. If there is not enough room, it removes the rounds without
/// copies, and enlarges the ring if they were fewer than half. So a round costs constant time on average.
pub fn reserve_rounds(rounds: &mut Rounds, places: u32) -> Result<(), NoMemory>
    requires { AreRising rounds.old.items }
    ensures rising { AreRising rounds.new.items }
    ensures copies { HaveSameCopies rounds.old.items rounds.new.items }
    ensures less { length rounds.new.items ≤ length rounds.old.items }
    ensures capacity { rounds.old.capacity ≤ rounds.new.capacity }
    ensures room { OnOk result (length rounds.new.items + places ≤ rounds.new.capacity) }
{
    if rounds.len() + places as usize <= rounds.capacity() {
        return Ok(());
    }
    remove_empty(rounds);
    let wanted = rounds.len() + places as usize;
    if wanted <= rounds.capacity() / 2 {
        return Ok(());
    }
    rounds.resize(wanted.max(2 * rounds.capacity()))
}

// Removes the rounds without copies.
fn remove_empty(rounds: &mut Rounds)
    ensures { rounds.new ≡ buffer (filter has_copies rounds.old.items) rounds.old.capacity }
{
    for _ in 0..rounds.len() {
        turn_on(rounds);
    }
}

// Moves the first round after the others, or removes it if it has no copies.
fn turn_on(rounds: &mut Rounds)
    requires { length rounds.old.items ≤ rounds.old.capacity }
    ensures fits { length rounds.new.items ≤ rounds.new.capacity }
    ensures turned { rounds.new ≡ buffer (drop 1 rounds.old.items ++ filter has_copies (take 1 rounds.old.items))
        rounds.old.capacity }
{
    let Some(entry) = rounds.pop_front() else {
        return;
    };
    if entry.copies.is_empty() {
        return;
    }
    put_last(rounds, entry);
}

/// Appends copies to the list of a round, in time that grows with the logarithm of the number of rounds.
pub fn append_to_round(rounds: &mut Rounds, round: u32, copies: CopyList)
    requires rising { AreRising rounds.old.items }
    requires room { length rounds.old.items < rounds.old.capacity }
    requires few { length (copies_of round rounds.old.items) + length copies < 2 ^ 63 }
    ensures rising { AreRising rounds.new.items }
    ensures copies { copies_of round rounds.new.items ≡ copies_of round rounds.old.items ++ copies }
    ensures others { HaveSameOthers round rounds.old.items rounds.new.items }
    ensures more { length rounds.new.items ≤ length rounds.old.items + 1 }
    ensures capacity { rounds.new.capacity ≡ rounds.old.capacity }
{
    let place = place_of(rounds, round);
    if is_round_at(rounds, place, round) {
        append_at(rounds, place, copies);
    } else {
        put_at(rounds, place, RoundCopies { round, copies });
    }
}

/// Splits off the oldest copy of a round. `None` if the round has no copy.
pub fn split_oldest(rounds: &mut Rounds, round: u32) -> Option<CopyList>
    requires { AreRising rounds.old.items }
    ensures rising { AreRising rounds.new.items }
    ensures none { IfNone result ((copies_of round rounds.old.items ≡ []) × (rounds.new ≡ rounds.old)) }
    ensures some { IfSome result (λ oldest. (0 < length (copies_of round rounds.old.items))
        × (oldest ≡ take 1 (copies_of round rounds.old.items))) }
    ensures left { copies_of round rounds.new.items ≡ drop 1 (copies_of round rounds.old.items) }
    ensures others { HaveSameOthers round rounds.old.items rounds.new.items }
    ensures length { length rounds.new.items ≡ length rounds.old.items }
    ensures capacity { rounds.new.capacity ≡ rounds.old.capacity }
{
    let place = place_of(rounds, round);
    if !has_copies_at(rounds, place, round) {
        return None;
    }
    Some(split_first_at(rounds, place))
}

/// The oldest copy of a round, if it has one.
pub fn oldest_of_round(rounds: &Rounds, round: u32) -> Option<&FlightCopy>
    requires { AreRising rounds.now.items }
    ensures { option_copied result ≡ slice_get (copies_of round rounds.now.items) 0 }
{
    let place = place_of(rounds, round);
    if !has_copies_at(rounds, place, round) {
        return None;
    }
    standing_at(rounds, place).copies.front()
}

/// The first round with a copy that is due at a reading, in nanoseconds. `None` if no copy is due.
pub fn first_due(rounds: &Rounds, reading: Nanos) -> Option<u32>
    ensures { result ≡ option_map (λ entry. entry.round) (find (has_due reading) rounds.now.items) }
{
    rounds
        .iter()
        .find(|entry| has_due(&entry.copies, reading))
        .map(|entry| entry.round)
}

// The place of a round, found by binary search: all rounds before it are earlier, and no other round is.
fn place_of(rounds: &Rounds, round: u32) -> usize
    requires { AreRising rounds.now.items }
    ensures bound { result ≤ length rounds.now.items }
    ensures parts { IsFirstToFail (λ entry. nat_lt entry.round round) rounds.now.items result }
{
    partition_point(rounds, |entry| entry.round < round)
}

// Whether the entry at a place belongs to a round.
fn is_round_at(rounds: &Rounds, place: usize, round: u32) -> bool
    ensures { result ≡ option_map_or (is_for round) (slice_get rounds.now.items place) false }
{
    match rounds.get(place) {
        None => false,
        Some(entry) => entry.round == round,
    }
}

// Appends copies to the list of the round at a place.
fn append_at(rounds: &mut Rounds, place: usize, copies: CopyList)
    requires place { place < length rounds.old.items }
    requires few { (d : Entry) → length (slice_index_or rounds.old.items place d).copies + length copies < 2 ^ 63 }
    ensures { (d : Entry) → let old = slice_index_or rounds.old.items place d in
        rounds.new ≡ buffer (slice_set rounds.old.items place (record old { copies = old.copies ++ copies }))
        rounds.old.capacity }
{
    match rounds.get_mut(place) {
        None => unreachable!(),
        Some(entry) => append(&mut entry.copies, copies),
    }
}

// Whether the entry at a place belongs to a round, and has copies.
fn has_copies_at(rounds: &Rounds, place: usize, round: u32) -> bool
    ensures { result ≡ option_map_or (has_copies_for round) (slice_get rounds.now.items place) false }
{
    match rounds.get(place) {
        None => false,
        Some(entry) => entry.round == round && !entry.copies.is_empty(),
    }
}

// Splits off the first copy of the round at a place.
fn split_first_at(rounds: &mut Rounds, place: usize) -> CopyList
    requires place { place < length rounds.old.items }
    requires some { (d : Entry) → 0 < length (slice_index_or rounds.old.items place d).copies }
    ensures first { (d : Entry) → result ≡ take 1 (slice_index_or rounds.old.items place d).copies }
    ensures others { (d : Entry) → let old = slice_index_or rounds.old.items place d in
        rounds.new ≡ buffer (slice_set rounds.old.items place (record old { copies = drop 1 old.copies }))
        rounds.old.capacity }
{
    match rounds.get_mut(place) {
        None => unreachable!(),
        Some(entry) => split_first(&mut entry.copies),
    }
}

// Whether one of these copies is due at a reading.
fn has_due(copies: &CopyList, reading: Nanos) -> bool
    ensures { result ≡ list_any (is_due reading) copies.now }
{
    copies.iter().any(|copy| is_due(copy, reading))
}

// Whether a copy's due reading is at most this one.
fn is_due(copy: &FlightCopy, reading: Nanos) -> bool
    ensures { result ≡ is_due reading copy.now }
{
    match copy.due {
        None => false,
        Some(due) => due <= reading,
    }
}
