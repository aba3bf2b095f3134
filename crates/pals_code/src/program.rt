//! The one call that does all the program does.
ghost use Rattle.std.specs.Prelude.{◌≡◌, ◌≢◌, ℕ, List, IfOk, OnErr, IsSome, option_copied};
ghost use Rattle.pals_io.specs.SourcesAndSinks.{GivesWithin, after_taking, TakesPart};
ghost use Rattle.pals_code.specs.Answers.{root_of, is_plain, reading, IsAnswer, IsSourceAnswer};
ghost use Rattle.pals_code.specs.proof.StatusAndText.{status_of, text_of};

use crate::answer::Answer;
use crate::bundle_answer::answer_bundle;
use crate::status::{NO_MEMORY, WRITE_FAULT};
use pals_base::limits::BUNDLE_BYTES;
use pals_base::{NoMemory, Text};
use pals_io::{ReadEnd, Sink, Source, WriteFault, read_all, write_all};
use std::alloc::{AllocError, Global};

/// Reads a bundle from the source, writes the listing of the step code of its design, below the root that
/// the words name, to the sink, and returns a status.
///
/// 0: the listing was written. 2: the words are not one root. 3: the bundle's design text is refused. 4: the
/// design is refused. 9: the source failed. 10: the sink failed. 11: there was not enough memory, and nothing
/// was written. 12: there were more bytes than a bundle may have. 13: the step code of a component is too long.
pub fn code<S: Source, K: Sink>(alloc: Global, words: &[Text], source: &mut S, sink: &mut K) -> u8
    // The answer's whole text was written.
    ensures answered { result ≢ WRITE_FAULT → result ≢ NO_MEMORY → (text : List ℕ)
        × IsAnswer (root_of words.now) (reading (S.shown source.old) (S.shown source.new)) result text
        × (K.shown sink.new ≡ after_taking (K.shown sink.old) text) }

    // The sink failed, and a part of an answer's text was written.
    ensures cut_short { result ≡ WRITE_FAULT → (status : ℕ) × (text : List ℕ)
        × IsAnswer (root_of words.now) (reading (S.shown source.old) (S.shown source.new)) status text
        × TakesPart (K.shown sink.old) (K.shown sink.new) text }

    // There was not enough memory, no call failed, and nothing was written.
    ensures no_memory { result ≡ NO_MEMORY → IsSome (root_of words.now)
        × GivesWithin (S.shown source.old) (S.shown source.new) BUNDLE_BYTES
        × (sink.new ≡ sink.old) }
{
    let Ok(answer) = answer_to(alloc, words, source) else {
        return NO_MEMORY;
    };
    match write_all(sink, answer.text()) {
        Ok(()) => answer.status(),
        Err(WriteFault) => WRITE_FAULT,
    }
}

// The answer, its whole text made.
fn answer_to<S: Source>(alloc: Global, words: &[Text], source: &mut S) -> Result<Answer, NoMemory>
    ensures ok { IfOk result (λ answer. IsAnswer (root_of words.now) (reading (S.shown source.old) (S.shown source.new))
        (status_of answer) (text_of answer)) }
    ensures err { OnErr result (IsSome (root_of words.now)
        × GivesWithin (S.shown source.old) (S.shown source.new) BUNDLE_BYTES) }
{
    match root_of(words) {
        Some(root) => answer_source(alloc, root, source),
        None => Ok(Answer::Usage),
    }
}

// The root that the words name: they are one word, which does not begin as flags do.
fn root_of(words: &[Text]) -> Option<&Text>
    ensures { option_copied result ≡ root_of words.now }
{
    match words {
        [root] if is_plain(root) => Some(root),
        _ => None,
    }
}

// Whether a word does not begin as flags do.
fn is_plain(word: &Text) -> bool
    ensures { result ≡ is_plain word.now }
{
    match word.as_bytes() {
        [first, ..] => *first != b'-',
        [] => true,
    }
}

// The answer to the bytes of a source.
fn answer_source<S: Source>(alloc: Global, root: &Text, source: &mut S) -> Result<Answer, NoMemory>
    ensures ok { IfOk result (λ answer. IsSourceAnswer root.now (reading (S.shown source.old) (S.shown source.new))
        (status_of answer) (text_of answer)) }
    ensures err { OnErr result (GivesWithin (S.shown source.old) (S.shown source.new) BUNDLE_BYTES) }
{
    match read_all(alloc, source, BUNDLE_BYTES) {
        Ok(bundle) => answer_bundle(alloc, bundle.as_slice(), root),
        Err(ReadEnd::ReadFault) => Ok(Answer::ReadFault),
        Err(ReadEnd::TooLong) => Ok(Answer::TooLong),
        Err(ReadEnd::Memory) => Err(AllocError),
    }
}
