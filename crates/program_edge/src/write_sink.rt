//! A sink that wraps a writer of std.
ghost use Rattle.std.specs.Prelude.{◌≡◌, true, IsSome};
ghost use Rattle.program_edge.specs.ExposedBytes.{sink_view};

use super::exposure::Exposure;
use pals_io::{Failed, Sink};
use std::io::Write;
use std::marker::{Model, PhantomData};

/// A sink that wraps a writer. It exposes the writer's bytes if its exposure states so. Its failed calls are
/// the writer's errors and the writes that accepted nothing. Its model is the writer and the count. It never
/// flushes: flush a buffering writer afterwards.
#[derive(Drop)]
pub struct WriteSink<W: Write, E: Exposure> {
    writer: W,
    faults: u64,
    exposure: PhantomData<E>,
}

impl<W: Write, E: Exposure> Model for WriteSink<W, E> {
    ghost use Rattle.std.specs.Prelude.{◌≡◌, true, IsSome};
    ghost use Rattle.program_edge.specs.proof.CountedReadersAndWriters.{Counted};

    ghost Value = { Counted W };

    ghost view = { λ s. record { inner = s.writer; faults = s.faults } };

    // Bytes that are exposed remain known.
    ghost invariant = { λ s. E.exposed ≡ true → IsSome (W.contents s.writer) };
}

impl<W: Write, E: Exposure> WriteSink<W, E> {
    /// Creates a sink that writes to the writer, whose bytes are known if they are exposed.
    pub fn new(writer: W) -> WriteSink<W, E>
        requires { E.exposed ≡ true → IsSome (W.contents writer) }
        ensures { result ≡ record { inner = writer; faults = 0 } }
    {
        WriteSink {
            writer,
            faults: 0,
            exposure: PhantomData,
        }
    }

    /// Returns the writer.
    pub fn into_writer(self) -> W
        ensures { result ≡ self.inner }
    {
        self.writer
    }
}

impl<W: Write, E: Exposure> Sink for WriteSink<W, E> {
    ghost shown = { λ s. sink_view E.exposed (W.contents s.inner) s.faults };

    fn write(&mut self, piece: &[u8]) -> Result<usize, Failed> {
        match self.writer.write(piece) {
            Ok(n) if n > 0 => Ok(n),
            _ => {
                self.faults = self.faults.saturating_add(1);
                Err(Failed)
            }
        }
    }
}
