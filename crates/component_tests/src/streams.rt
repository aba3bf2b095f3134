//! Sources and sinks of bytes: what memory, readers and writers that fail, and std's readers and writers give and
//! take.
ghost use Rattle.std.specs.Prelude.{◌<◌};

use pals_io::{Failed, MemSink, MemSource, ReadEnd, Source, read_all, write_all};
use program_edge::{ReadSource, WriteSink};
use std::alloc::{AllocError, Global};
use std::io;
use std::io::{ErrorKind, Read, Write};
use std::marker::Brand;

// Gives or takes two bytes, then fails, then gives or takes two bytes more.
#[derive(Drop)]
struct Faulty {
    calls: u8,
}

impl Read for Faulty {
    fn read(&mut self, buf: &mut [u8]) -> io::Result<usize> {
        self.calls = self.calls.saturating_add(1);
        if self.calls == 2 {
            return Err(io::Error::from(ErrorKind::BrokenPipe));
        }
        if self.calls > 3 {
            return Ok(0);
        }
        let n = buf.len().min(2);
        for byte in &mut buf[..n] {
            *byte = b'x';
        }
        Ok(n)
    }
}

impl Write for Faulty {
    fn write(&mut self, piece: &[u8]) -> io::Result<usize> {
        self.calls = self.calls.saturating_add(1);
        if self.calls == 2 {
            return Err(io::Error::from(ErrorKind::BrokenPipe));
        }
        Ok(piece.len().min(2))
    }

    fn flush(&mut self) -> io::Result<()> {
        Ok(())
    }
}

fn source(
    alloc: Global,
    bytes: &[u8],
    most: usize,
    failing: &[u64],
) -> Result<MemSource, AllocError>
    requires { 0 < most }
{
    let failing = failing.to_vec(alloc)?;
    Ok(MemSource::new(bytes.to_vec(alloc)?, most, failing))
}

// Whether the source gives these bytes, up to its end.
fn gives<S: Source>(alloc: Global, source: &mut S, most: usize, bytes: &[u8]) -> bool {
    match read_all(alloc, source, most) {
        Ok(read) => read.as_slice() == bytes,
        Err(_end) => false,
    }
}

fn end_of<S: Source>(alloc: Global, source: &mut S, most: usize) -> Option<ReadEnd> {
    read_all(alloc, source, most).err()
}

/// Whether a source of bytes returns them piece by piece, and fails at the planned call.
pub fn reads_from_memory(alloc: Global) -> Result<bool, AllocError> {
    let mut source = source(alloc, b"abcdefg", 3, &[2, 5])?;
    let mut buf = [0u8; 4];
    let mut is_right = true;
    for want in [Ok(3), Err(Failed), Ok(3), Ok(1), Err(Failed), Ok(0)] {
        is_right = is_right && source.read(&mut buf) == want;
    }
    Ok(is_right && buf == *b"gef\0")
}

// A sink whose second call fails.
fn sink(alloc: Global) -> Result<MemSink, AllocError> {
    let failing = vec![in alloc; 2]?;
    MemSink::new(alloc, 16, 8, failing)
}

/// Whether a sink keeps the bytes that it took before a failed call, and continues after them.
pub fn writes_to_memory(alloc: Global) -> Result<bool, AllocError> {
    let mut sink = sink(alloc)?;
    let first = write_all(&mut sink, b"round 0\nround 1\n").is_err();
    let is_half = sink.taken() == b"round 0\n".as_slice();
    let second = write_all(&mut sink, b"round 1\n").is_ok();
    let is_whole = sink.taken() == b"round 0\nround 1\n".as_slice();
    Ok(first && is_half && second && is_whole && write_all(&mut sink, b".").is_err())
}

/// Whether a small sink takes the bytes that fit.
pub fn writes_to_a_small_memory(alloc: Global) -> Result<bool, AllocError> {
    let mut sink = MemSink::new(alloc, 5, 3, Vec::new(alloc))?;
    let nothing = write_all(&mut sink, b"").is_ok();
    let more = write_all(&mut sink, b"abcdefg").is_err();
    Ok(nothing && more && sink.taken() == b"abcde".as_slice())
}

// How many of `count` sevens are read, at most 1000 a call.
fn sevens_read(alloc: Global, count: usize, most: usize) -> Result<usize, ReadEnd> {
    let bytes = vec![in alloc; 7u8; count]?;
    let mut source = MemSource::new(bytes, 1000, Vec::new(alloc));
    Ok(read_all(alloc, &mut source, most)?.len())
}

/// Whether all is read up to the end, and nothing past the limit.
pub fn reads_to_the_end(alloc: Global) -> bool {
    let read = [
        sevens_read(alloc, 0, 0),
        sevens_read(alloc, 1, 0),
        sevens_read(alloc, 70_000, 70_000),
        sevens_read(alloc, 70_001, 70_000),
        sevens_read(alloc, 70_000, usize::MAX),
    ];
    read == [
        Ok(0),
        Err(ReadEnd::TooLong),
        Ok(70_000),
        Err(ReadEnd::TooLong),
        Ok(70_000),
    ]
}

/// Whether a source that failed gives all its bytes to who asks again.
pub fn reads_on_behind_a_fault(alloc: Global) -> Result<bool, AllocError> {
    let mut source = source(alloc, b"abc", 1, &[1])?;
    let end = end_of(alloc, &mut source, 3);
    Ok(end == Some(ReadEnd::ReadFault) && gives(alloc, &mut source, 3, b"abc"))
}

/// Whether the readers of the standard library are read.
pub fn reads_from_std(alloc: Global) -> bool {
    let mut whole = ReadSource::<_, Brand>::new(b"abc".as_slice());
    let mut faulty = ReadSource::<_, Brand>::new(Faulty { calls: 0 });
    gives(alloc, &mut whole, 3, b"abc")
        && end_of(alloc, &mut faulty, 9) == Some(ReadEnd::ReadFault)
        && gives(alloc, &mut faulty, 9, b"xx")
}

// Whether the bytes that find no room are refused and the others written.
fn fills_a_slice() -> bool {
    let mut short = [0u8; 2];
    let is_refused = write_all(
        &mut WriteSink::<_, Brand>::new(short.as_mut_slice()),
        b"abc",
    )
    .is_err();
    is_refused && short == *b"ab"
}

/// Whether the writers of the standard library are written to.
pub fn writes_to_std(alloc: Global) -> bool {
    let mut sink = WriteSink::<_, Brand>::new(Faulty { calls: 0 });
    let is_refused = write_all(&mut sink, b"abcd").is_err();
    let is_taken = write_all(&mut sink, b"cd").is_ok();
    let mut written = Vec::new(alloc);
    let is_written = write_all(&mut WriteSink::<_, Brand>::new(&mut written), b"abc").is_ok();
    let is_whole = is_written && written.as_slice() == b"abc".as_slice();
    is_refused && is_taken && fills_a_slice() && is_whole
}
