//! Laws of fused composition. Each is the contract of a function that does nothing.
ghost use Rattle.plant_fuse.specs.proof.FusedLaws.{SolutionExists, SolutionIsOne, SolutionGoesOn, StepsAreMade};
ghost use Rattle.plant_fuse.specs.proof.FusedLaws.{RoundsGoOn, RoundIsOne, RoundsFollow, StatesFollow, WithoutPairs};
ghost use Rattle.plant_fuse.specs.proof.FusedLaws.{ReportExists, ReportIsOne, ReportWithoutPairs};
ghost use Rattle.plant_fuse.specs.proof.CounterPlant.{CountersArePairs, CountersFuse, FusedCountersCount};

/// The equations of a design with pairs have exactly one solution for each number of
/// rounds, and that of one round more begins with it.
pub fn one_solution()
    ensures exists { SolutionExists }
    ensures one { SolutionIsOne }
    ensures onward { SolutionGoesOn }
{}

/// Each round of a solution follows uniquely from the configuration before it: so computing one round after
/// another gives the solution.
pub fn rounds_go_on()
    ensures onward { RoundsGoOn }
    ensures one { RoundIsOne }
    ensures follow { RoundsFollow }
{}

/// The steps of a solution can be made one after the other.
pub fn steps_are_made()
    ensures { StepsAreMade }
{}

/// Products that advance round by round agree with the solution, and show the parts of the components in
/// each round.
pub fn products_follow()
    ensures { StatesFollow }
{}

/// Without pairs the configuration after these rounds is the composition's.
pub fn without_pairs()
    ensures { WithoutPairs }
{}

/// The fused composition of any number of rounds has exactly one report. Without pairs it is that of the
/// composition.
pub fn one_report()
    ensures exists { ReportExists }
    ensures one { ReportIsOne }
    ensures without_pairs { ReportWithoutPairs }
{}

/// The two counters, the first as the plant of the second: they are a pair, and they count on from each
/// other within a round.
pub fn counters_are_fused()
    ensures pairs { CountersArePairs }
    ensures solution { CountersFuse }
    ensures counted { FusedCountersCount }
{}
