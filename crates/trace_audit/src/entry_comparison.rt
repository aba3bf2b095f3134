//! Entries of a journal, compared: whether two have one line, and whether one is the last of a journal.
ghost use Rattle.std.specs.Prelude.{◌≡◌, ◌++◌, ◌∷◌, ◌↔◌, [], List, Some, IsTrue};
ghost use Rattle.pals_runs.specs.declared.journal.JournalEntry.{JournalEntry};
ghost use Rattle.run_laws.specs.EntriesOfDesigns.{IsEntryIn};
ghost use Rattle.run_laws.specs.TraceRules.{is_line_of};

use pals_model::Design;
use pals_runs::JournalEntry;

/// Whether two entries of a design have one line.
pub fn is_line_of(design: &Design, entry: &JournalEntry, other: &JournalEntry) -> bool
    requires entry { IsEntryIn design.now entry.now }
    requires other { IsEntryIn design.now other.now }
    ensures { result ≡ is_line_of design.now entry.now (Some other.now) }
{
    let _period = design.period();
    is_same(other, entry)
}

fn is_same(entry: &JournalEntry, other: &JournalEntry) -> bool
    ensures { IsTrue result ↔ (entry.now ≡ other.now) }
{
    entry == other
}

/// Whether an entry is the last one of a journal.
pub fn is_last(journal: &[JournalEntry], entry: &JournalEntry) -> bool
    ensures { (before : List JournalEntry) (last : JournalEntry) → journal.now ≡ before ++ last ∷ [] → IsTrue result
        ↔ (last ≡ entry.now) }
{
    match journal {
        [.., last] => is_same(last, entry),
        [] => false,
    }
}
