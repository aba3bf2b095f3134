//! Laws of lines: lines of entries have forms and denote their entries, lines of texts and reports are as they were
//! made; and the verdict on four traces. The functions have empty bodies: their contracts are the laws.
ghost use Rattle.run_laws.specs.proof.EntryLines.{EntriesHaveLines, LinesDiffer, LinesHaveForms, LinesTellEntries};
ghost use Rattle.run_laws.specs.proof.EntryLines.{ToldAreIn};
ghost use Rattle.run_laws.specs.proof.ReportLines.{ReportsHaveNoForms, ReportsHaveRows, TextsHaveLines};
ghost use Rattle.run_laws.specs.proof.TwoCounterTraces.{TracesAreJudged};

/// The line of an entry of a design is one line, and has the form of that entry, with its name, its
/// numbers and its words.
pub fn lines_have_forms()
    ensures lines { EntriesHaveLines }
    ensures forms { LinesHaveForms }
{}

/// So reading a line gives its entry again, and no two entries of a design have the same line. Each line
/// that denotes an entry denotes an entry of the design.
pub fn lines_tell_entries()
    ensures told { LinesTellEntries }
    ensures differ { LinesDiffer }
    ensures within { ToldAreIn }
{}

/// The text of lines has these lines.
pub fn texts_have_lines()
    ensures { TextsHaveLines }
{}

/// The lines of a report are the composition's, in whole rows, and none has the form of a journal's
/// line.
pub fn reports_are_sound()
    ensures rows { ReportsHaveRows }
    ensures forms { ReportsHaveNoForms }
{}

/// The verdict on the trace of one round of two counters, and on three that are wrong.
pub fn judged_traces()
    ensures { TracesAreJudged }
{}
