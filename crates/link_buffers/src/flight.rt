//! The messages in flight on one link.
ghost use Rattle.std.specs.Prelude.{◌≡◌, ◌+◌, ◌-◌, ◌≤◌, [], ◌∷◌, ◌++◌, max, IfNone, IfOk, OnOk, OnErr, option_copied};
ghost use Rattle.std.specs.Prelude.{option_map};
ghost use Rattle.pals_model.specs.Flights.{oldest, without_oldest};
ghost use Rattle.link_buffers.specs.proof.Flights.{flight_of, due_rounds};
ghost use Rattle.link_buffers.specs.proof.FirstAndLeastItems.{least};

use crate::copies_by_round::{
    Rounds, append_to_round, first_due, oldest_of_round, reserve_rounds, split_oldest,
};
use crate::copy_nodes::{CopyNodes, copy_in};
use crate::copy_order::CopyOrder;
use pals_base::{Nanos, NoMemory, Tuple};
use pals_model::FlightCopy;
use std::alloc::Global;
use std::marker::Model;

/// The copies of messages in flight on one link. The model is the list of copies in order of adding, and
/// the number of further copies for which there is room. The copies of each round form a list of their
/// own, found by binary search, so a copy may be added or taken in logarithmic time wherever it is.
#[derive(Drop)]
pub struct Flight {
    alloc: Global,
    rounds: Rounds,
    nodes: CopyNodes,
    spare: u32,
    order: CopyOrder,
}

impl Model for Flight {
    ghost use Rattle.std.specs.Prelude.{◌≡◌, ◌+◌, ◌^◌, ◌<◌, ◌≤◌, length};
    ghost use Rattle.link_buffers.specs.proof.Flights.{FlightState};
    ghost use Rattle.link_buffers.specs.proof.CopiesByRound.{AreRising, AreByRound};

    ghost Value = { FlightState };

    ghost view = { λ flight. record { copies = flight.order.copies; spare = flight.spare } };

    ghost invariant = { λ flight.
        AreRising flight.rounds.items × AreByRound flight.rounds.items flight.order.copies
        × (length flight.order.copies + length flight.nodes.free ≡ flight.nodes.made) × (flight.nodes.made < 2 ^ 32)
        × (flight.spare ≤ length flight.nodes.free)
        × (length flight.rounds.items + flight.spare ≤ flight.rounds.capacity) };
}

impl Flight {
    /// A flight without copies and without room for any.
    pub fn new(alloc: Global) -> Result<Flight, NoMemory>
        ensures { IfOk result (λ flight. flight ≡ flight_of [] 0) }
    {
        Ok(Flight {
            alloc,
            rounds: Rounds::with_capacity(alloc, 0)?,
            nodes: CopyNodes::new(alloc),
            spare: 0,
            order: CopyOrder::new(),
        })
    }

    /// Makes room for at least `places` further copies. The copies do not change. If there is
    /// not enough memory, nothing changes.
    pub fn reserve(&mut self, places: u32) -> Result<(), NoMemory>
        ensures copies { self.new.copies ≡ self.old.copies }
        ensures room { OnOk result (max places self.old.spare ≤ self.new.spare) }
        ensures same { OnErr result (self.new ≡ self.old) }
        ensures enough { places ≤ self.old.spare → result ≡ Ok tt }
    {
        if places <= self.spare {
            return Ok(());
        }
        self.nodes.reserve(self.alloc, places)?;
        reserve_rounds(&mut self.rounds, places)?;
        self.spare = places;
        Ok(())
    }

    /// Adds a copy as the newest. Does not allocate.
    pub fn flight_add(&mut self, round: u32, due: Option<Nanos>, tuple: Tuple)
        requires { 1 ≤ self.old.spare }
        ensures { self.new ≡ flight_of (self.old.copies ++ record { round = round; due = due; tuple = tuple } ∷ [])
            (self.old.spare - 1) }
    {
        let copy = FlightCopy { round, due, tuple };
        self.order = self.order.with_newest(&copy);
        let node = self.nodes.take(copy);
        append_to_round(&mut self.rounds, round, node);
        self.spare -= 1;
    }

    /// Removes the oldest copy of a round and returns its tuple, or `None` if the round has no copy. The
    /// order of the others does not change. Does not allocate, and the room does not shrink.
    pub fn flight_take(&mut self, round: u32) -> Option<Tuple>
        ensures taken { result ≡ option_map (λ copy. copy.tuple) (oldest round self.old.copies) }
        ensures others { self.new.copies ≡ without_oldest round self.old.copies }
        ensures spare { self.old.spare ≤ self.new.spare }
        ensures same { IfNone result (self.new ≡ self.old) }
    {
        let node = split_oldest(&mut self.rounds, round)?;
        self.order = self.order.without_oldest(copy_in(&node));
        Some(self.nodes.give_back(self.alloc, node))
    }

    /// The oldest copy of a round. `None` if the round has no copy.
    pub fn flight_oldest(&self, round: u32) -> Option<&FlightCopy>
        ensures { option_copied result ≡ oldest round self.now.copies }
    {
        oldest_of_round(&self.rounds, round)
    }

    /// The earliest round with a copy that is due at a reading, in nanoseconds. `None` if no copy is due.
    pub fn flight_due(&self, reading: Nanos) -> Option<u32>
        ensures { result ≡ least (due_rounds reading self.now.copies) }
    {
        first_due(&self.rounds, reading)
    }
}
