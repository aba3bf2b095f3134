//! Laws of schedules and rings. The functions do nothing: their contracts are the laws.
ghost use Rattle.world_gen.specs.proof.ScheduleLaws.{SchedulesAreWhole, MomentsExist, MomentsAreOne};
ghost use Rattle.world_gen.specs.proof.CounterSchedulesAndFaults.{CountersAreScheduled, FastIsScheduled, FastFaults};
ghost use Rattle.world_gen.specs.proof.RingLaws.{RingsAreDesigns, RingNumbersAreSmall, RingsAddUp, DoneRingsAddUp};

/// Each run has one schedule. It is within the bounds, and leaves all nodes done.
pub fn schedules_are_whole()
    ensures exist { MomentsExist }
    ensures one { MomentsAreOne }
    ensures whole { SchedulesAreWhole }
{}

/// Schedules of two counters, and of two counters of four steps a round, of which three are sent; and
/// events that a world of these refuses.
pub fn schedules_of_counters()
    ensures slow { CountersAreScheduled }
    ensures fast { FastIsScheduled }
    ensures refused { FastFaults }
{}

/// Each ring of two components or more, within the limit, is a design. Its numbers are from 0 to
/// 999; and the results of two small rings.
pub fn rings_are_designs()
    ensures designs { RingsAreDesigns }
    ensures small { RingNumbersAreSmall }
    ensures sums { RingsAddUp }
{}

/// A ring whose nodes are all done has the numbers of the composition, and each of its links has
/// brought a message in each round.
pub fn done_rings_add_up()
    ensures { DoneRingsAddUp }
{}
