//! A source that wraps a reader of std.
ghost use Rattle.std.specs.Prelude.{◌≡◌, true, IsSome};
ghost use Rattle.program_edge.specs.ExposedBytes.{source_view};

use super::exposure::Exposure;
use pals_io::{Failed, Source};
use std::io::Read;
use std::marker::{Model, PhantomData};

/// A source that wraps a reader. It exposes the reader's remaining bytes if its exposure states so. Its failed
/// calls are the reader's errors. Its model is the reader and the count.
#[derive(Drop)]
pub struct ReadSource<R: Read, E: Exposure> {
    reader: R,
    faults: u64,
    exposure: PhantomData<E>,
}

impl<R: Read, E: Exposure> Model for ReadSource<R, E> {
    ghost use Rattle.std.specs.Prelude.{◌≡◌, true, IsSome};
    ghost use Rattle.program_edge.specs.proof.CountedReadersAndWriters.{Counted};

    ghost Value = { Counted R };

    ghost view = { λ s. record { inner = s.reader; faults = s.faults } };

    // Bytes that are exposed remain known.
    ghost invariant = { λ s. E.exposed ≡ true → IsSome (R.remaining s.reader) };
}

impl<R: Read, E: Exposure> ReadSource<R, E> {
    /// Creates a source of the reader's remaining bytes, which are known if they are exposed.
    pub fn new(reader: R) -> ReadSource<R, E>
        requires { E.exposed ≡ true → IsSome (R.remaining reader) }
        ensures { result ≡ record { inner = reader; faults = 0 } }
    {
        ReadSource {
            reader,
            faults: 0,
            exposure: PhantomData,
        }
    }

    /// Returns the reader.
    pub fn into_reader(self) -> R
        ensures { result ≡ self.inner }
    {
        self.reader
    }
}

impl<R: Read, E: Exposure> Source for ReadSource<R, E> {
    ghost shown = { λ s. source_view E.exposed (R.remaining s.inner) s.faults };

    fn read(&mut self, buf: &mut [u8]) -> Result<usize, Failed> {
        match self.reader.read(buf) {
            Ok(n) => Ok(n),
            Err(_) => {
                self.faults = self.faults.saturating_add(1);
                Err(Failed)
            }
        }
    }
}
