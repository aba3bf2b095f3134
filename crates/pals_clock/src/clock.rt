//! A clock that is a list of readings, and the clocks of a run.
ghost use Rattle.std.specs.Prelude.{◌≡◌, ◌-◌, ◌<◌, ◌≤◌, ◌↔◌, length, drop, All, IsTrue, IsErr, IfOk, OnOk, OnErr};
ghost use Rattle.std.specs.Prelude.{MatchOption, slice_get, slice_index};
ghost use Rattle.std.specs.List.Sorted.{IsNonDecreasing};
ghost use Rattle.pals_base.specs.ClockPicks.{remaining_from};
ghost use Rattle.pals_base.specs.declared.limits.TheConstants.{READING};
ghost use Rattle.pals_clock.specs.ClockStates.{AreReadings, unpicked, standing_at};

use pals_base::{ItemList, Nanos, NoMemory};
use std::alloc::Global;
use std::marker::Model;

/// The clock's list holds no reading for the target.
#[derive(Clone, Copy, PartialEq, Debug)]
pub struct ClockEnd;

/// The clocks of a run: one hour on which all nodes meet, or a list of readings for each node, in
/// the order of the nodes.
#[derive(Drop)]
pub enum Clocks {
    Meet,
    Lists(ItemList<ListClock>),
}

/// A clock that is a list of readings, which don't fall and are at most `READING`. Its model is the whole list and
/// the rest of it: the last pick, if there is one, and the later readings.
#[derive(Drop)]
pub struct ListClock {
    readings: ItemList<Nanos>,
    behind: usize,
}

impl Model for ListClock {
    ghost use Rattle.std.specs.Prelude.{◌≤◌, length, drop};
    ghost use Rattle.std.specs.List.Sorted.{IsNonDecreasing};
    ghost use Rattle.pals_clock.specs.ClockStates.{AreReadings, ClockState};

    ghost Value = { ClockState };

    ghost view = { λ c. record { readings = c.readings; left = drop c.behind c.readings } };

    ghost invariant = { λ c. (c.behind ≤ length c.readings) × IsNonDecreasing c.readings × AreReadings c.readings };
}

impl ListClock {
    /// A clock of these readings, in nanoseconds, without a pick. Does not allocate.
    pub fn new(readings: ItemList<Nanos>) -> ListClock
        requires order { IsNonDecreasing readings }
        requires range { AreReadings readings }
        ensures { result ≡ unpicked readings }
    {
        ListClock {
            readings,
            behind: 0,
        }
    }

    /// All readings of the clock's list, in nanoseconds. They don't fall, none is above `READING`, and the rest
    /// is a suffix of them.
    pub fn readings(&self) -> &[Nanos]
        ensures value { result.now ≡ self.now.readings }
        ensures order { IsNonDecreasing self.now.readings }
        ensures range { AreReadings self.now.readings }
        ensures left { drop (length self.now.readings - length self.now.left) self.now.readings ≡ self.now.left }
    {
        self.readings.as_slice()
    }

    /// Picks a reading for a target: the last pick if it is at least the target, else the first later
    /// reading that is. The clock is then at this reading. Fails if and only if no reading of the rest is
    /// at least the target; the clock is then unchanged, so it fails for this target and every greater one
    /// from then on.
    pub fn wait_for(&mut self, target: Nanos) -> Result<Nanos, ClockEnd>
        ensures pick { IfOk result (λ reading. slice_get self.new.left 0 ≡ Some reading) }
        ensures range { IfOk result (λ reading. reading ≤ READING) }
        ensures stands { OnOk result (self.new ≡ standing_at self.old (remaining_from self.old.left target)) }
        ensures ended { IsErr result ↔ All (λ reading. reading < target) self.old.left }
        ensures same { OnErr result (self.new ≡ self.old) }
    {
        let left = &self.readings.as_slice()[self.behind..];
        let passed = passed_over(left, target).ok_or(ClockEnd)?;
        let reading = left[passed];
        self.behind += passed;
        Ok(reading)
    }

    /// A clock of the same list, without a pick.
    pub fn fresh(&self, alloc: Global) -> Result<ListClock, NoMemory>
        ensures { IfOk result (λ clock. clock ≡ unpicked self.now.readings) }
    {
        let readings = ItemList::from_slice(alloc, self.readings.as_slice())?;
        Ok(ListClock::new(readings))
    }

    /// Whether two clocks have equal lists, whatever their picks.
    pub fn same_list(&self, other: &ListClock) -> bool
        ensures { IsTrue result ↔ (self.now.readings ≡ other.now.readings) }
    {
        self.readings.as_slice() == other.readings.as_slice()
    }
}

// The number of readings before the first that is at least the target; `None` if all are below it.
fn passed_over(readings: &[Nanos], target: Nanos) -> Option<usize>
    ensures { MatchOption result (All (λ reading. reading < target) readings.now)
        (λ n. (n < length readings.now) × (target ≤ slice_index readings.now n)
        × (remaining_from readings.now target ≡ drop n readings.now)) }
{
    readings.iter().position(|&reading| target <= reading)
}
