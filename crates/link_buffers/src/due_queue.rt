//! A node's messages in the order in which they become due.
ghost use Rattle.std.specs.Prelude.{◌≡◌, ◌+◌, ◌-◌, ◌≤◌, ◌↔◌, [], max, take, filter, count_by, Contains, IsTrue, IfOk};
ghost use Rattle.std.specs.Prelude.{OnOk, OnErr, slice_get, if◌then◌else◌};
ghost use Rattle.std.specs.Bool.{OnFalse};

use crate::binary_search::partition_point;
use crate::ring_insertion_and_removal::{put_at, take_at};
use circular_buffer::HeapCircularBuffer;
use pals_base::{LinkNo, Nanos, NoMemory};
use std::alloc::Global;
use std::marker::Model;

/// A message that is due from a reading on, in nanoseconds: its link and its round.
#[derive(Clone, Copy, PartialEq, Debug)]
pub struct DueEntry {
    pub due: Nanos,
    pub link: LinkNo,
    pub round: u32,
}

impl DueEntry {
    ghost use Rattle.link_buffers.specs.proof.DueQueues.{comes_before};

    // Whether the entry comes before another: by due reading, then by link, then by round.
    fn comes_before(&self, other: &DueEntry) -> bool
        ensures { result ≡ comes_before self.now other.now }
    {
        (self.due, self.link.0, self.round) < (other.due, other.link.0, other.round)
    }
}

/// A node's messages that become due. The model is the list of entries in rising order of due reading,
/// then link, then round, and the number of further entries for which there is room. An entry that was
/// added twice is in the list twice. A place is found by binary search. Only the entries between it and
/// the nearer end move; no entry moves if the first is removed or one is added at the end.
#[derive(Drop)]
pub struct DueQueue {
    entries: HeapCircularBuffer<DueEntry>,
}

impl Model for DueQueue {
    ghost use Rattle.std.specs.Prelude.{◌-◌, ◌≤◌, length};
    ghost use Rattle.link_buffers.specs.proof.DueQueues.{QueueState, IsRising};

    ghost Value = { QueueState };

    ghost view = { λ queue. record {
      entries = queue.entries.items;
      spare = queue.entries.capacity - length queue.entries.items;
    } };

    ghost invariant = { λ queue. (length queue.entries.items ≤ queue.entries.capacity) × IsRising queue.entries.items };
}

impl DueQueue {
    ghost use Rattle.link_buffers.specs.proof.DueQueues.{queue_of, IsRising, with_entry, without_entry, is_due_at};

    /// A queue without entries, and without room for any.
    pub fn new(alloc: Global) -> Result<DueQueue, NoMemory>
        ensures { IfOk result (λ queue. queue ≡ queue_of [] 0) }
    {
        Ok(DueQueue {
            entries: HeapCircularBuffer::with_capacity(alloc, 0)?,
        })
    }

    /// Makes room for at least `places` further entries. The entries stay as they are. If there is
    /// not enough memory, nothing changes.
    pub fn reserve(&mut self, places: u32) -> Result<(), NoMemory>
        ensures entries { self.new.entries ≡ self.old.entries }
        ensures room { OnOk result (max places self.old.spare ≤ self.new.spare) }
        ensures same { OnErr result (self.new ≡ self.old) }
        ensures enough { places ≤ self.old.spare → result ≡ Ok tt }
    {
        let wanted = self.entries.len() + places as usize;
        if wanted <= self.entries.capacity() {
            return Ok(());
        }
        self.entries.resize(wanted.max(2 * self.entries.capacity()))
    }

    /// Adds an entry at its place in the order. Does not allocate.
    pub fn add(&mut self, entry: DueEntry)
        requires { 1 ≤ self.old.spare }
        ensures { self.new ≡ queue_of (with_entry entry self.old.entries) (self.old.spare - 1) }
    {
        let place = partition_point(&self.entries, |other| !entry.comes_before(other));
        put_at(&mut self.entries, place, entry);
    }

    /// Removes one entry that equals this one, and returns whether there was one. If not, nothing
    /// changes. Does not allocate, and leaves room for another entry.
    pub fn remove(&mut self, entry: DueEntry) -> bool
        ensures found { IsTrue result ↔ Contains self.old.entries entry }
        ensures others { self.new.entries ≡ without_entry entry self.old.entries }
        ensures spare { self.new.spare ≡ (if result then self.old.spare + 1 else self.old.spare) }
        ensures same { OnFalse result (self.new ≡ self.old) }
    {
        let place = partition_point(&self.entries, |other| other.comes_before(&entry));
        if !stands_at(&self.entries, place, &entry) {
            return false;
        }
        take_at(&mut self.entries, place);
        true
    }

    /// How many entries are due at a reading, in nanoseconds. They are the first ones of the queue.
    pub fn due_count(&self, reading: Nanos) -> usize
        ensures count { result ≡ count_by (is_due_at reading) self.now.entries }
        ensures first { take result self.now.entries ≡ filter (is_due_at reading) self.now.entries }
    {
        partition_point(&self.entries, |entry| entry.due <= reading)
    }

    /// The entry at a place, in rising order. `None` past the end.
    pub fn get(&self, place: usize) -> Option<DueEntry>
        ensures entry { result ≡ slice_get self.now.entries place }
        ensures order { IsRising self.now.entries }
    {
        self.entries.get(place).copied()
    }
}

// Whether an entry is at a place.
fn stands_at(entries: &HeapCircularBuffer<DueEntry>, place: usize, entry: &DueEntry) -> bool
    ensures { IsTrue result ↔ (slice_get entries.now.items place ≡ Some entry.now) }
{
    match entries.get(place) {
        None => false,
        Some(found) => found == entry,
    }
}
