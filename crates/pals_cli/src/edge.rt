//! The program on the system's arguments, a reader and a writer.
ghost use Rattle.std.specs.Prelude.{◌≡◌, ◌≢◌, ℕ, List, is_some};
ghost use Rattle.std.specs.Io.KnownBytes.{Appends};
ghost use Rattle.pals_base.specs.declared.limits.TheConstants.{BUNDLE_BYTES};
ghost use Rattle.pals_top.specs.declared.status.TheConstants.{WRITE_FAULT, NO_MEMORY};
ghost use Rattle.program_edge.specs.Arguments.{words_of};
ghost use Rattle.program_edge.specs.ExposedBytes.{ConsumesWithin, AppendsPart};
ghost use Rattle.pals_cli.specs.ReaderAnswers.{IsAnswerTo};

use node_threads::{NoGate, ThreadStarter};
use pals_base::Text;
use pals_top::pals;
use pals_top::status::NO_MEMORY;
use program_edge::{Exit, Exposure, ReadSource, WriteSink, command_words};
use std::alloc::Global;
use std::env::Args;
use std::io;
use std::io::{Read, Write};
use std::marker::Brand;
use std::sync::Wait;
use std::thread::Threads;

/// Executes the command of the arguments on the bytes of the reader and writes the answer's text to the writer.
/// A clause about the bytes of a reader or a writer that does not expose them claims nothing about these bytes.
/// [`pals`] lists the statuses.
pub fn execute<T: Threads + Wait + Sync, R: Read, W: Write>(
    rt: &T,
    alloc: Global,
    arguments: io::Result<Args>,
    reader: R,
    writer: W,
) -> Exit<R, W>
    // The whole text of an answer was written.
    ensures answered { result.status ≢ WRITE_FAULT → result.status ≢ NO_MEMORY → (text : List ℕ)
        × IsAnswerTo (words_of arguments) (R.remaining reader) (R.remaining result.reader) result.status text
        × Appends (W.contents writer) (W.contents result.writer) text }

    // A write failed, and a part of an answer's text was written.
    ensures cut_short { result.status ≡ WRITE_FAULT → (status : ℕ) × (text : List ℕ)
        × IsAnswerTo (words_of arguments) (R.remaining reader) (R.remaining result.reader) status text
        × AppendsPart (W.contents writer) (W.contents result.writer) text }

    // There was not enough memory, and nothing was written.
    ensures no_memory { result.status ≡ NO_MEMORY
        → ConsumesWithin (R.remaining reader) (R.remaining result.reader) BUNDLE_BYTES × (result.writer ≡ writer) }
{
    match command_words(alloc, arguments) {
        Ok(words) => execute_on_streams::<T, R, W, Brand, Brand>(
            rt,
            alloc,
            words.as_slice(),
            reader,
            writer,
        ),
        Err(_) => Exit {
            status: NO_MEMORY,
            reader,
            writer,
        },
    }
}

// The same for arguments that were read. Bytes are exposed if they are known.
fn execute_on_streams<T: Threads + Wait + Sync, R: Read, W: Write, I: Exposure, O: Exposure>(
    rt: &T,
    alloc: Global,
    words: &[Text],
    reader: R,
    writer: W,
) -> Exit<R, W>
    requires input { I.exposed ≡ is_some (R.remaining reader) }
    requires output { O.exposed ≡ is_some (W.contents writer) }
    ensures answered { result.status ≢ WRITE_FAULT → result.status ≢ NO_MEMORY → (text : List ℕ)
        × IsAnswerTo words.now (R.remaining reader) (R.remaining result.reader) result.status text
        × Appends (W.contents writer) (W.contents result.writer) text }
    ensures cut_short { result.status ≡ WRITE_FAULT → (status : ℕ) × (text : List ℕ)
        × IsAnswerTo words.now (R.remaining reader) (R.remaining result.reader) status text
        × AppendsPart (W.contents writer) (W.contents result.writer) text }
    ensures no_memory { result.status ≡ NO_MEMORY
        → ConsumesWithin (R.remaining reader) (R.remaining result.reader) BUNDLE_BYTES × (result.writer ≡ writer) }
{
    let mut source = ReadSource::<R, I>::new(reader);
    let mut sink = WriteSink::<W, O>::new(writer);
    let starter = &mut ThreadStarter;
    let status = pals(rt, alloc, words, &mut source, &mut sink, starter, &NoGate);
    Exit {
        status,
        reader: source.into_reader(),
        writer: sink.into_writer(),
    }
}
