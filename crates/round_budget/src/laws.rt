//! Laws of round budgets. Each is the contract of a function that does nothing.
ghost use Rattle.round_budget.specs.proof.BudgetLaws.{EachIsServed, ServedOnce, ServedInOrder, NoneBeginsEarly};
ghost use Rattle.round_budget.specs.proof.BudgetLaws.{OneAtATime, ResponsesFit, MostResponsesFit, ExecResponsesFit};
ghost use Rattle.round_budget.specs.proof.BudgetLaws.{RoundsAreApart, TimetableRepeats, TextIsOne, VerdictIsOne};
ghost use Rattle.round_budget.specs.proof.TurnControllerBudget.{TurnIsCompiled, TurnFits, TurnIsOver, TurnHasSlots};
ghost use Rattle.round_budget.specs.proof.TurnControllerBudget.{TurnIsWritten, TurnIsWrittenOver};

/// Each release is served once, in order of release and then of component.
pub fn releases_are_served()
    ensures each { EachIsServed }
    ensures once { ServedOnce }
    ensures order { ServedInOrder }
{}

/// No step begins before its release, and none before the one before it is done.
pub fn steps_follow_one_another()
    ensures begin { NoneBeginsEarly }
    ensures apart { OneAtATime }
{}

/// If one step of each member fits into the maximum execution time, each step is done within the maximum
/// execution time after its release: for any counts of instructions up to the weights of the codes, for the
/// weights, and for the counts that the codes execute in the composition.
pub fn responses_fit()
    ensures any { ResponsesFit }
    ensures most { MostResponsesFit }
    ensures exec { ExecResponsesFit }
{}

/// And then every step of a round is finished when the next one begins, so one round's timetable is every
/// round's.
pub fn rounds_are_apart()
    ensures apart { RoundsAreApart }
    ensures repeats { TimetableRepeats }
{}

/// Two lists of codes that are laid out for the same behaviours give one text, and one answer to
/// whether a processor is over.
pub fn text_is_one()
    ensures text { TextIsOne }
    ensures verdict { VerdictIsOne }
{}

/// The turn controller on one processor: the sums, the timetable if they fit, and its text.
pub fn turn_is_budgeted()
    ensures compiled { TurnIsCompiled }
    ensures fits { TurnFits }
    ensures over { TurnIsOver }
    ensures slots { TurnHasSlots }
    ensures written { TurnIsWritten }
    ensures written_over { TurnIsWrittenOver }
{}
