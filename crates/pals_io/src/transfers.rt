//! Reads all bytes of a source, and writes all bytes to a sink.
ghost use Rattle.std.specs.Prelude.{◌≡◌, ◌≤◌, [], vec_len, Err, IfOk, OnOk, OnErr};
ghost use Rattle.pals_io.specs.SourcesAndSinks.{GivesAll, GivesWithin, GivesTooMany, FailsWithin, after_taking};
ghost use Rattle.pals_io.specs.SourcesAndSinks.{TakesPart};

use super::stream_errors::{ReadEnd, WriteFault};
use super::streams::{Sink, Source};
use std::alloc::{AllocError, Global};

// The number of bytes to read in one call. They are cleared once: for a small bundle, clearing more of them
// would take a tenth of the time of `check`.
const PIECE: usize = 8_192;

/// Reads a source to its end, if at most `most` bytes remain.
///
/// # Errors
///
/// [`ReadEnd::ReadFault`] if a call failed, which is the last one, and [`ReadEnd::TooLong`] if the source
/// provided `most + 1` bytes. [`ReadEnd::Memory`] if there is not enough memory: then no call failed, and the
/// source provided at most `most` bytes. The bytes read until then are lost.
pub fn read_all<S: Source>(alloc: Global, source: &mut S, most: usize) -> Result<Vec<u8>, ReadEnd>
    ensures all { IfOk result (λ v. GivesAll (S.shown source.old) (S.shown source.new) v.items) }
    ensures within { IfOk result (λ v. vec_len v ≤ most) }
    ensures fault { result ≡ Err ReadEnd.ReadFault → FailsWithin (S.shown source.old) (S.shown source.new) most }
    ensures too_long { result ≡ Err ReadEnd.TooLong → GivesTooMany (S.shown source.old) (S.shown source.new) most }
    ensures memory { result ≡ Err ReadEnd.Memory → GivesWithin (S.shown source.old) (S.shown source.new) most }
{
    let mut buffer = zeros(alloc, PIECE)?;
    let piece = buffer.as_mut_slice();
    let mut all = Vec::new(alloc);
    loop {
        let room = most - all.len();
        let asked = room.saturating_add(1).min(PIECE);
        let n = source.read(&mut piece[..asked])?;
        if n == 0 {
            return Ok(all);
        }
        if n > room {
            return Err(ReadEnd::TooLong);
        }
        all.extend_from_slice(&piece[..n])?;
    }
}

// `count` bytes, which will be overwritten.
fn zeros(alloc: Global, count: usize) -> Result<Vec<u8>, AllocError>
    ensures { IfOk result (λ v. vec_len v ≡ count) }
{
    vec![in alloc; 0u8; count]
}

/// Writes all bytes, in order. Does not allocate. Makes no call for an empty slice.
///
/// # Errors
///
/// [`WriteFault`] if a call failed, which is the last one. A proper prefix of the bytes was then written.
pub fn write_all<K: Sink>(sink: &mut K, bytes: &[u8]) -> Result<(), WriteFault>
    ensures all { OnOk result (K.shown sink.new ≡ after_taking (K.shown sink.old) bytes.now) }
    ensures part { OnErr result (TakesPart (K.shown sink.old) (K.shown sink.new) bytes.now) }
    ensures nothing { bytes.now ≡ [] → sink.new ≡ sink.old }
{
    let mut done = 0;
    while done < bytes.len() {
        done += sink.write(&bytes[done..])?;
    }
    Ok(())
}
