//! A source in memory.
ghost use Rattle.std.specs.Prelude.{◌≡◌, ◌↔◌, ◌<◌, ◌≤◌, [], ◌++◌, length, take, drop, Some, IsErr, IfOk, OnErr};
ghost use Rattle.std.specs.Prelude.{Contains};
ghost use Rattle.pals_io.specs.SourcesAndSinks.{one_more};
ghost use Rattle.pals_io.specs.proof.MemoryStreams.{count_given, after_giving, after_failed_read};

use super::stream_errors::Failed;
use super::streams::Source;
use std::marker::Model;

/// A source that provides the bytes that it was created with, and fails at given calls.
#[derive(Drop)]
pub struct MemSource {
    bytes: Vec<u8>,
    given: usize,
    most: usize,
    failing: Vec<u64>,
    calls: u64,
    faults: u64,
}

impl Model for MemSource {
    ghost use Rattle.std.specs.Prelude.{◌<◌, ◌≤◌, length, drop};
    ghost use Rattle.pals_io.specs.proof.MemoryStreams.{SourceState};

    ghost Value = { SourceState };

    ghost view = { λ s. record {
      left = drop s.given s.bytes.items;
      most = s.most;
      failing = s.failing.items;
      calls = s.calls;
      faults = s.faults;
    } };

    ghost invariant = { λ s. (s.given ≤ length s.bytes.items) × (0 < s.most) };
}

impl MemSource {
    /// Creates a source of these bytes that provides at most `most` of them in a call. A call fails if its
    /// number, counted from 1, is in `failing`.
    pub fn new(bytes: Vec<u8>, most: usize, failing: Vec<u64>) -> MemSource
        requires { 0 < most }
        ensures { result ≡ record { left = bytes.items; most = most; failing = failing.items; calls = 0; faults = 0 } }
    {
        MemSource {
            bytes,
            given: 0,
            most,
            failing,
            calls: 0,
            faults: 0,
        }
    }
}

impl Source for MemSource {
    ghost shown = { λ s. record { left = Some s.left; faults = s.faults } };

    fn read(&mut self, buf: &mut [u8]) -> Result<usize, Failed>
        requires { 0 < length buf.old }
        ensures bound { IfOk result (λ n. n ≤ length buf.new) }
        ensures end { IfOk result (λ n. (n ≡ 0) ↔ (self.old.left ≡ [])) }

        // It fails if and only if its number is given, and otherwise provides as many bytes as possible.
        ensures fails { IsErr result ↔ Contains self.old.failing (one_more self.old.calls) }
        ensures count { IfOk result (λ n. n ≡ count_given self.old (length buf.old)) }
        ensures given { IfOk result (λ n. self.new ≡ after_giving self.old n) }
        ensures filled { IfOk result (λ n. buf.new ≡ take n self.old.left ++ drop n buf.old) }
        ensures failed { OnErr result (self.new ≡ after_failed_read self.old) }
        ensures kept { OnErr result (buf.new ≡ buf.old) }
    {
        self.calls = self.calls.saturating_add(1);
        if self.failing.contains(&self.calls) {
            self.faults = self.faults.saturating_add(1);
            return Err(Failed);
        }
        let left = &self.bytes[self.given..];
        let n = self.most.min(buf.len().min(left.len()));
        buf[..n].copy_from_slice(&left[..n]);
        self.given += n;
        Ok(n)
    }
}
