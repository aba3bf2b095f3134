//! The state that the journal of a run determines. Each law is the contract of a function with an empty body.
ghost use Rattle.std.specs.Prelude.{◌≡◌, List, [], ◌∷◌, ◌++◌, Some};
ghost use Rattle.pals_runs.specs.declared.journal.Stop.{Stop};
ghost use Rattle.pals_runs.specs.declared.journal.JournalEntry.{JournalEntry};
ghost use Rattle.pals_runs.specs.declared.journal.JournalEntry.TheVariants as entry;
ghost use Rattle.bus_machine.specs.BusStates.{BusState};
ghost use Rattle.bus_machine.specs.RunParameters.{Run};
ghost use Rattle.bus_machine.specs.Machine.{BusEvent, IsStep};
ghost use Rattle.bus_machine.specs.Replay.{Replays, entries};

/// A journal determines the state of a run: two replays of one journal lead to one state.
pub fn one_replay()
    ensures { (run : Run) (journal : List JournalEntry) (s t : BusState) → Replays run journal s → Replays run journal t
        → s ≡ t }
{}

/// The entries of an event determine its effect: from one state, reachable or not, two steps with the same
/// entries lead to one state.
pub fn one_step()
    ensures { (run : Run) (s t u : BusState) (e f : BusEvent) → IsStep run s e t → IsStep run s f u
        → entries run s e ≡ entries run s f → t ≡ u }
{}

/// A stop is the last entry of a journal, and the run has that stop; if a run has a stop, its journal ends
/// with it.
pub fn a_stop_is_last()
    ensures nothing_behind { (run : Run) (front back : List JournalEntry) (why : Stop) (s : BusState)
        → Replays run (front ++ entry.Stopped why ∷ back) s → (back ≡ []) × (s.stop ≡ Some why) }
    ensures told { (run : Run) (journal : List JournalEntry) (why : Stop) (s : BusState) → Replays run journal s
        → s.stop ≡ Some why
        → (front : List JournalEntry) × (journal ≡ front ++ entry.Stopped why ∷ []) }
{}
