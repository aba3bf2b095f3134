//! Laws of monitors. Each law is the contract of a function that does nothing.
ghost use Rattle.run_monitor.specs.proof.FormulaLaws.{PreviousReads, OnceReads, HistoricallyReads};
ghost use Rattle.run_monitor.specs.proof.FormulaLaws.{SinceReads, PastStays, OneBitEach};
ghost use Rattle.run_monitor.specs.proof.FrameRowGrowth.{HistoryHasRounds, HistoryGoesOn, SaidAtOnce, RowsGoOn};
ghost use Rattle.run_monitor.specs.proof.FirstFalseProperty.{ViolatedIsFirst, OthersHold};
ghost use Rattle.run_monitor.specs.proof.CounterProperties.{SmallIsWatched, UpIsWatched, QuietIsWatched, TwoText};
ghost use Rattle.run_monitor.specs.proof.CounterProperties.{OneText, AreViolated};

/// The meaning of the temporal operators, over all rounds up to the current one.
pub fn words_read_as_written()
    ensures previous { PreviousReads }
    ensures once { OnceReads }
    ensures historically { HistoricallyReads }
    ensures since { SinceReads }
{}

/// The value of a formula at a round stays, whatever follows.
pub fn past_stays()
    ensures { PastStays }
{}

/// One bit for each subformula, its value at the last round, is enough to compute its value in the next.
pub fn one_bit_each()
    ensures { OneBitEach }
{}

/// The history of a design grows by a row each round, and a formula's value at a round is known at once: so
/// the text grows by the lines of each round.
pub fn histories_grow()
    ensures rounds { HistoryHasRounds }
    ensures goes_on { HistoryGoesOn }
    ensures at_once { SaidAtOnce }
    ensures rows { RowsGoOn }
{}

/// If a formula is false at some round, the last line names the first such round, and the first formula
/// that is false there; otherwise all hold throughout, and the last line states this.
pub fn last_lines_name_the_first()
    ensures violated { ViolatedIsFirst }
    ensures others { OthersHold }
{}

/// Three properties of the two counters over three rounds.
pub fn counters_are_watched()
    ensures small { SmallIsWatched }
    ensures up { UpIsWatched }
    ensures quiet { QuietIsWatched }
    ensures two_text { TwoText }
    ensures one_text { OneText }
    ensures violated { AreViolated }
{}
