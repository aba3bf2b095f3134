//! What a world within the bounds keeps. Each law is the contract of a function that does nothing.
ghost use Rattle.run_laws.specs.proof.WorldLaws.{OpeningKeepsTime, EventKeepsTime, ArrivalsAreKept, CountsAreClose};
ghost use Rattle.run_laws.specs.proof.WorldLaws.{MessagesStandOnce, TimesAreReadings, ListsGoRight};
ghost use Rattle.run_laws.specs.proof.TwoCounterWorlds.{EventsAreRefused, ArrivesTooSoon, EarliestSender, LatestSender};

/// No clock is off by the skew, nothing is past its last allowed time, and each message that was sent
/// is in one place: so it is at the opening, and each event within the bounds keeps it.
pub fn time_is_kept()
    ensures opening { OpeningKeepsTime }
    ensures event { EventKeepsTime }
{}

/// If the timing invariant of a world holds, each sent message is in flight, in its slot or taken, each
/// arriving message is stored, and no node is two rounds ahead of another.
pub fn messages_are_kept()
    ensures once { MessagesStandOnce }
    ensures arrivals { ArrivalsAreKept }
    ensures counts { CountsAreClose }
{}

/// What a world computes with stays in range: last allowed times, and the readings of nodes that are not
/// done.
pub fn times_are_readings()
    ensures { TimesAreReadings }
{}

/// After each event of a list within the bounds the run has no stop, the bus agrees with the composition,
/// no node is two rounds ahead, and each arrival was stored.
pub fn lists_go_right()
    ensures { ListsGoRight }
{}

/// Events that a world of two counters refuses, each with its cause.
pub fn refused_events()
    ensures table { EventsAreRefused }
    ensures too_soon { ArrivesTooSoon }
{}

/// Two worlds of two counters at the ends of their bounds, and the texts that they leave.
pub fn worlds_at_their_bounds()
    ensures earliest { EarliestSender }
    ensures latest { LatestSender }
{}
