//! Laws on how close the bound is to the best one. Each is the contract of a function that does nothing.
ghost use Rattle.exact_bound.specs.proof.ExactBounds.{SendersAreExact, DesignsAreExact, StepsHaveTimeExactly};
ghost use Rattle.exact_bound.specs.proof.ExactBounds.{OneLessIsEnough, TwoLessIsNot, NoBoundIsBetter};
ghost use Rattle.exact_bound.specs.proof.ShortPeriodStops.{ShortPeriodStops};

/// The messages of a sender arrive between the two starts if and only if its offset and the period are long
/// enough. In a design that is so at each rate if and only if the period is at least one nanosecond less than
/// the bound's first term. Steps have time to execute if and only if the period is at least its second term.
pub fn the_bound_is_exact()
    ensures senders { SendersAreExact }
    ensures designs { DesignsAreExact }
    ensures steps { StepsHaveTimeExactly }
{}

/// One nanosecond less than the least period is enough for messages, and two nanoseconds less are not enough
/// for messages and steps. Whatever offset a sender waits for, the period is at least two nanoseconds less.
pub fn no_bound_is_better()
    ensures enough { OneLessIsEnough }
    ensures too_short { TwoLessIsNot }
    ensures best { NoBoundIsBetter }
{}

/// Two counters whose period is two nanoseconds below their least one: a list of events within the bounds that
/// ends with an input that is missed.
pub fn two_less_is_too_short()
    ensures { ShortPeriodStops }
{}
