//! Laws of histories and of the traces that record them: a trace is judged sound if and only if it is the trace of
//! a history that is over. Each law is the contract of a function with an empty body.
ghost use Rattle.run_laws.specs.proof.HistoryAndTraceLaws.{HistoriesReplay, SoundAreTraces, SoundIsTrace};
ghost use Rattle.run_laws.specs.proof.HistoryAndTraceLaws.{TracesAreSound};
ghost use Rattle.run_laws.specs.proof.RunTraces.{RunsAreHistories, RunsAreTraces};
ghost use Rattle.run_laws.specs.proof.EntryLines.{ToldAreLines};

/// A trace is judged sound, with this number of rounds and this stop, if and only if it is the report of
/// this many rounds of the composition followed by the lines of a history that is over: the run has this
/// stop, or all nodes are done, and all nodes have finished this many rounds.
pub fn sound_is_trace()
    ensures means { SoundAreTraces }
    ensures judged { TracesAreSound }
    ensures both { SoundIsTrace }
{}

/// The journal of such a history replays to the state of the history, and its readings don't fall. A start
/// shows a reading of at least its round's alarm, a step at least its own time, and a send at least its
/// round's release. No message is lost or duplicated.
pub fn histories_replay()
    ensures { HistoriesReplay }
{}

/// The events of nodes that respect their clocks form such a history. So the trace of their run is such a
/// trace if the run has stopped or all nodes are done.
pub fn runs_are_traces()
    ensures history { RunsAreHistories }
    ensures trace { RunsAreTraces }
{}

/// A line that denotes an entry of a design has one spelling, the entry's own.
pub fn told_are_lines()
    ensures { ToldAreLines }
{}
