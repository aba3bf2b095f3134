//! A sink in memory.
ghost use Rattle.std.specs.Prelude.{◌≡◌, ◌↔◌, ◌⊎◌, ◌<◌, ◌≤◌, [], length, Some, IsErr, IfOk, OnErr, Contains};
ghost use Rattle.pals_io.specs.SourcesAndSinks.{one_more};
ghost use Rattle.pals_io.specs.proof.MemoryStreams.{count_taken, after_taking, after_failed_write};

use super::stream_errors::Failed;
use super::streams::Sink;
use std::alloc::{AllocError, Global};
use std::marker::Model;

/// A sink that stores the accepted bytes, up to its capacity, and fails at given calls.
#[derive(Drop)]
pub struct MemSink {
    bytes: Vec<u8>,
    room: usize,
    most: usize,
    failing: Vec<u64>,
    calls: u64,
    faults: u64,
}

impl Model for MemSink {
    ghost use Rattle.std.specs.Prelude.{◌<◌, ◌≤◌, length, vec_capacity};
    ghost use Rattle.pals_io.specs.proof.MemoryStreams.{SinkState};

    ghost Value = { SinkState };

    ghost view = { λ s. record {
      held = s.bytes.items;
      room = s.room;
      most = s.most;
      failing = s.failing.items;
      calls = s.calls;
      faults = s.faults;
    } };

    ghost invariant = { λ s. (length s.bytes.items ≤ s.room) × (s.room ≤ vec_capacity s.bytes) × (0 < s.most) };
}

impl MemSink {
    /// Creates an empty sink that stores at most `room` bytes and accepts at most `most` of them in a call. A
    /// call fails if its number, counted from 1, is in `failing`, or if the sink is full.
    ///
    /// # Errors
    ///
    /// [`AllocError`] if there is not enough memory for the capacity. Writing does not allocate.
    pub fn new(
        alloc: Global,
        room: usize,
        most: usize,
        failing: Vec<u64>,
    ) -> Result<MemSink, AllocError>
        requires { 0 < most }
        ensures { IfOk result (λ s. s ≡ record {
          held = [];
          room = room;
          most = most;
          failing = failing.items;
          calls = 0;
          faults = 0;
        }) }
    {
        let bytes = Vec::with_capacity(alloc, room)?;
        Ok(MemSink {
            bytes,
            room,
            most,
            failing,
            calls: 0,
            faults: 0,
        })
    }

    /// Returns all accepted bytes, in order.
    pub fn taken(&self) -> &[u8]
        ensures { result.now ≡ self.now.held }
    {
        self.bytes.as_slice()
    }
}

impl Sink for MemSink {
    ghost shown = { λ s. record { held = Some s.held; faults = s.faults } };

    fn write(&mut self, piece: &[u8]) -> Result<usize, Failed>
        requires { 0 < length piece.now }
        ensures bound { IfOk result (λ n. (0 < n) × (n ≤ length piece.now)) }

        // It fails if and only if its number is given or the sink is full, and otherwise accepts as many bytes
        // as possible.
        ensures fails { IsErr result ↔ (Contains self.old.failing (one_more self.old.calls)
            ⊎ (self.old.room ≤ length self.old.held)) }
        ensures count { IfOk result (λ n. n ≡ count_taken self.old (length piece.now)) }
        ensures taken { IfOk result (λ n. self.new ≡ after_taking self.old piece.now n) }
        ensures failed { OnErr result (self.new ≡ after_failed_write self.old) }
    {
        self.calls = self.calls.saturating_add(1);
        let room = self.room - self.bytes.len();
        if room == 0 || self.failing.contains(&self.calls) {
            self.faults = self.faults.saturating_add(1);
            return Err(Failed);
        }
        let n = self.most.min(piece.len().min(room));
        let taken = self.bytes.extend_from_slice(&piece[..n]);
        taken.unwrap();
        Ok(n)
    }
}
