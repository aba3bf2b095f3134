//! The one call that does all the program does.
ghost use Rattle.std.specs.Prelude.{◌≡◌, ◌≢◌, ℕ, true, false, List, IfOk, OnErr, IsSome};
ghost use Rattle.pals_io.specs.SourcesAndSinks.{GivesWithin, after_taking, TakesPart};
ghost use Rattle.pals_top.specs.CommandWords.{command_of_words, IsWithinRingLimits};
ghost use Rattle.pals_top.specs.ProgramInput.{reading};
ghost use Rattle.pals_top.specs.Answers.{reads_source, IsAnswer, IsFormAnswer, IsSourceAnswer, IsCommandAnswer};
ghost use Rattle.pals_top.specs.proof.FlaggedAndRunCommands.{is_run};
ghost use Rattle.pals_top.specs.proof.StatusAndText.{status_of, text_of, IsWritten};

use crate::analysis::answer_analysis;
use crate::answer::Answer;
use crate::audit::AuditCommand;
use crate::budget::BudgetCommand;
use crate::check::answer_check;
use crate::command_line::{WordsEnd, read_words};
use crate::execution::answer_execution;
use crate::fuse::FuseCommand;
use crate::print::answer_print;
use crate::run::answer_run;
use crate::status::{NO_MEMORY, WRITE_FAULT};
use crate::sync::SyncCommand;
use crate::vote::VoteCommand;
use crate::watch::WatchCommand;
use crate::world::WorldCommand;
use crate::world_loose::LooseWorldCommand;
use node_threads::{Gate, Host, Starter};
use pals_base::limits::BUNDLE_BYTES;
use pals_base::{NoMemory, Text};
use pals_io::{ReadEnd, Sink, Source, WriteFault, read_all, write_all};
use pals_runs::Command;
use std::alloc::{AllocError, Global};
use std::sync::Wait;
use std::thread::Threads;
use world_texts::tell_ring;

/// Executes the command of the arguments on the bytes of the source, writes the answer's text to the sink
/// and returns its status. A run's nodes run in threads if the starter admits them, and the gate is notified
/// of their jobs; `run` may wait for locks and for the threads to end. No other command receives the runtime.
///
/// 0: the result was written. 1: it was written, and a checked property does not hold: a trace is wrong, a
/// property is false at some round, or a processor has more work than fits. 2: the arguments are invalid.
/// 3: the bundle's design text is rejected. 4: the design is rejected. 5: the scenario is rejected,
/// or an event of it. 6: a missed or an early input stopped the nodes. 7: the clock of a node ended. 9: the
/// source failed. 10: the sink failed. 11: memory ran out, and nothing was written. 12: there
/// were more bytes than a bundle may have. 13: the step code of a component is too long.
pub fn pals<R: Threads + Wait + Sync, S: Source, K: Sink, W: Starter, G: Gate + Sync>(
    rt: &R,
    alloc: Global,
    words: &[Text],
    source: &mut S,
    sink: &mut K,
    starter: &mut W,
    gate: &G,
) -> u8
    // The answer's whole text was written.
    ensures answered { result ≢ WRITE_FAULT → result ≢ NO_MEMORY → (text : List ℕ)
        × IsAnswer (command_of_words words.now) (reading (S.shown source.old) (S.shown source.new)) result text
        × (K.shown sink.new ≡ after_taking (K.shown sink.old) text) }

    // The sink failed, and a part of an answer's text was written.
    ensures cut_short { result ≡ WRITE_FAULT → (status : ℕ) × (text : List ℕ)
        × IsAnswer (command_of_words words.now) (reading (S.shown source.old) (S.shown source.new)) status text
        × TakesPart (K.shown sink.old) (K.shown sink.new) text }

    // There was not enough memory, no call failed, and nothing was written.
    ensures no_memory { result ≡ NO_MEMORY → IsSome (command_of_words words.now)
        × GivesWithin (S.shown source.old) (S.shown source.new) BUNDLE_BYTES
        × (sink.new ≡ sink.old) }
{
    match read_words(alloc, words) {
        Ok(Command::Run { root, trace }) => {
            let host = Host {
                runtime: rt,
                starter,
                gate,
            };
            write_answer(sink, answer_run(host, alloc, source, root, trace))
        }
        Ok(command) => write_answer(sink, answer_command(alloc, command, source)),
        Err(WordsEnd::Usage) => write_answer(sink, Ok(Answer::Usage)),
        Err(WordsEnd::Memory) => NO_MEMORY,
    }
}

// Writes the text of an answer, if there was memory to make one. The result is the program's status.
fn write_answer<K: Sink>(sink: &mut K, answer: Result<Answer, NoMemory>) -> u8
    ensures written { IfOk answer (IsWritten (K.shown sink.old) (K.shown sink.new) result) }
    ensures nothing { OnErr answer ((result ≡ NO_MEMORY) × (sink.new ≡ sink.old)) }
{
    let Ok(answer) = answer else {
        return NO_MEMORY;
    };
    match write_all(sink, answer.text()) {
        Ok(()) => answer.status(),
        Err(WriteFault) => WRITE_FAULT,
    }
}

// The answer of a command other than `run`.
fn answer_command<S: Source>(
    alloc: Global,
    command: Command,
    source: &mut S,
) -> Result<Answer, NoMemory>
    requires command_of_words { IsWithinRingLimits command }
    requires alone { is_run command ≡ false }
    ensures ok { IfOk result (λ answer. IsFormAnswer command (reading (S.shown source.old) (S.shown source.new))
        (status_of answer) (text_of answer)) }
    ensures err { OnErr result (GivesWithin (S.shown source.old) (S.shown source.new) BUNDLE_BYTES) }
{
    if let Command::Ring { nodes, rounds } = command {
        return Ok(Answer::Done(tell_ring(alloc, nodes, rounds)?));
    }
    answer_source(alloc, command, source)
}

// The command's answer to the bytes of a source.
fn answer_source<S: Source>(
    alloc: Global,
    command: Command,
    source: &mut S,
) -> Result<Answer, NoMemory>
    requires command_of_words { IsWithinRingLimits command }
    requires alone { is_run command ≡ false }
    requires reads { reads_source command ≡ true }
    ensures ok { IfOk result (λ answer. IsSourceAnswer command (reading (S.shown source.old) (S.shown source.new))
        (status_of answer) (text_of answer)) }
    ensures err { OnErr result (GivesWithin (S.shown source.old) (S.shown source.new) BUNDLE_BYTES) }
{
    match read_all(alloc, source, BUNDLE_BYTES) {
        Ok(bundle) => answer_bundle(alloc, command, bundle.as_slice()),
        Err(ReadEnd::ReadFault) => Ok(Answer::ReadFault),
        Err(ReadEnd::TooLong) => Ok(Answer::TooLong),
        Err(ReadEnd::Memory) => Err(AllocError),
    }
}

// The command's answer to a bundle.
fn answer_bundle(alloc: Global, command: Command, bundle: &[u8]) -> Result<Answer, NoMemory>
    requires command_of_words { IsWithinRingLimits command }
    requires alone { is_run command ≡ false }
    requires reads { reads_source command ≡ true }
    ensures { IfOk result (λ answer. IsCommandAnswer command bundle.now (status_of answer) (text_of answer)) }
{
    match command {
        Command::Print => answer_print(alloc, bundle),
        Command::Check { root } => answer_check(alloc, bundle, &root),
        Command::Sync { root } => answer_analysis(alloc, bundle, root, SyncCommand),
        Command::Watch { root } => answer_analysis(alloc, bundle, root, WatchCommand),
        Command::Vote { root } => answer_analysis(alloc, bundle, root, VoteCommand),
        Command::Fuse { root } => answer_analysis(alloc, bundle, root, FuseCommand),
        Command::World { root, loose: false } => {
            answer_execution(alloc, bundle, root, WorldCommand)
        }
        Command::World { root, loose: true } => {
            answer_execution(alloc, bundle, root, LooseWorldCommand)
        }
        Command::Audit { root } => answer_execution(alloc, bundle, root, AuditCommand),
        Command::Budget { root } => answer_execution(alloc, bundle, root, BudgetCommand),
        Command::Run { .. } | Command::Ring { .. } => unreachable!(),
    }
}
