//! What each run keeps. Each law is the contract of a function that does nothing.
ghost use Rattle.run_laws.specs.proof.BoundsBrokenAtStops.{StopsAreBounded};
ghost use Rattle.run_laws.specs.proof.RunGuarantees.{ClausesAreKept};
ghost use Rattle.run_laws.specs.proof.RunTermination.{EachGoesOn, EachRunEnds, EndsAreNamed, JournalsEnd};
ghost use Rattle.run_laws.specs.proof.RisingReadings.{ReadingsAreBelowTargets, ReadingsRise};
ghost use Rattle.run_laws.specs.proof.TimelyRunsAndEnds.{BoundsAreInTime, EndsAgree, NoneStops, PickedAreDone};
ghost use Rattle.run_laws.specs.proof.ClockAnswersAndDueArrivals.{DueArrives, EndsStay, ListEnds, ListPicks};
ghost use Rattle.run_laws.specs.proof.RunReplay.{RunsReplay};
ghost use Rattle.run_laws.specs.proof.MeetingLaws.{MeetingsEnd, MeetingsShowTargets, MeetingsStop, NoMeetingStops};
ghost use Rattle.run_laws.specs.proof.ListPicks.{LinesArePicks, NodesPick, ReadingsArePicks};
ghost use Rattle.run_laws.specs.proof.TwoCounterRuns.{SomeListEnds, SomeMeetingEnds};
ghost use Rattle.run_laws.specs.proof.RunTraces.{RunsAreSound, TracesAreTexts};
ghost use Rattle.run_laws.specs.proof.ReadingsAndStopCauses.{AllTimesFit, StopsFit};
ghost use Rattle.run_laws.specs.proof.ListRunEndsAndStops.{DoneArePicked, EndedPicksEnd, EndsAreTimely, ListsStop};
ghost use Rattle.run_laws.specs.proof.LinkTiming.{LinksAreTimed};
ghost use Rattle.run_laws.specs.proof.JournalStartsAndSends.{RoundsAreShown};

/// With list clocks a node does its actions in their order, each at its list's pick for it, so that
/// the readings of its lines are a prefix of its picks. An arrival or a stop shows the pick for the
/// start that it belongs to, which is the target's next one.
pub fn lists_show_picks()
    ensures nodes { NodesPick }
    ensures readings { ReadingsArePicks }
    ensures lines { LinesArePicks }
{}

/// With list clocks, if each node is done or has reached its list's end, every round of every link is in
/// time. A node is done if and only if its picks reach its last target; otherwise they end at the target
/// that it waits for. If the run stops for a missed message, the message's round is not in time; if it was
/// not sent, its source's picks end before its send. If the run stops for an early message, the message
/// was due at the pick of a start of its own round or of an earlier one.
pub fn lists_are_timely()
    ensures end { EndsAreTimely }
    ensures done { DoneArePicked }
    ensures ended { EndedPicksEnd }
    ensures stops { ListsStop }
{}

/// In virtual time, a start shows its round's alarm, a step its own time, a send its round's release, and
/// an arrival or a stop the alarm of the round that its target starts next.
pub fn meetings_show_targets()
    ensures { MeetingsShowTargets }
{}

/// In virtual time, a missed message is late and in transit, and an early message has no delay and is sent
/// at its round's alarm. If all nodes are done, no round of a link is late. With delays within the bounds
/// the run never has a stop.
pub fn meetings_stop()
    ensures stops { MeetingsStop }
    ensures end { MeetingsEnd }
    ensures none { NoMeetingStops }
{}

/// A message that is missed while in transit was sent late, or takes longer than the bounds allow. An early
/// message takes less time than they allow, or its target's clock reads two skews more than its round's
/// alarm.
pub fn stops_are_bounded()
    ensures { StopsAreBounded }
{}

/// The journal shows each start and each send. A copy in flight is due at the sum of its send's reading and
/// its delay. The message of each sent round is in flight once, in its slot, taken by a start, or taken by
/// an early stop; a message in a slot, or taken by a start, was due by then.
pub fn links_are_timed()
    ensures shown { RoundsAreShown }
    ensures timed { LinksAreTimed }
{}

/// In virtual time the readings of starts and sends are their targets; with list clocks they are at least
/// their targets. The reading of a stop is the reading of a start of its link's target. A missed message is
/// in transit and due later, or its source has not sent it and has reached its list's end; no message is
/// lost. An early message was due.
pub fn stops_fit()
    ensures times { AllTimesFit }
    ensures stops { StopsFit }
{}

/// The readings of a node don't fall. In virtual time, no reading so far is greater than the target of a
/// node that is not done.
pub fn readings_rise()
    ensures lines { ReadingsRise }
    ensures hour { ReadingsAreBelowTargets }
{}

/// The journal of a run replays to its state, which agrees with the composition.
pub fn runs_replay()
    ensures { RunsReplay }
{}

/// Each run satisfies all clauses: the readings in its lines, when it stops, which rounds are in time at
/// its end, and that its journal replays.
pub fn clauses_are_kept()
    ensures { ClausesAreKept }
{}

/// The trace of a run, the report of the rounds that all nodes have finished followed by the journal, is
/// sound if the run has stopped or all nodes are done. Its text, each line with a line end, has its lines.
pub fn runs_are_sound()
    ensures trace { RunsAreSound }
    ensures text { TracesAreTexts }
{}

/// A clock that shows a reading picks it for its node's next action. A clock that has no reading for it has
/// ended, and stays ended, whatever the nodes do. If a message arrives that is due to a node that is to
/// start, the arrival respects the clocks, and the node is still to start at that reading.
pub fn locked_steps()
    ensures picks { ListPicks }
    ensures ends { ListEnds }
    ensures stay { EndsStay }
    ensures due { DueArrives }
{}

/// With any clocks each design has a run that reaches its end: it stops, or all nodes are done, or, with
/// list clocks, each node is done or has reached its list's end. Each reachable state can be extended to
/// such an end, and every journal is finite. If lists end the run, the first node that is not done has
/// reached its list's end.
pub fn each_run_ends()
    ensures ends { EachRunEnds }
    ensures goes_on { EachGoesOn }
    ensures journals { JournalsEnd }
    ensures named { EndsAreNamed }
{}

/// A run in time has no stop, whatever the order in which the nodes act. In virtual time, delays within the
/// bounds are in time. How runs end depends only on the readings of the lists: all nodes are done, as they
/// are if the picks of each node reach its last target, or the same node ends first, at the same target.
pub fn runs_in_time()
    ensures stop { NoneStops }
    ensures bounds { BoundsAreInTime }
    ensures end { EndsAgree }
    ensures done { PickedAreDone }
{}

/// There are such runs. Two counters that meet are done; and where the list of the first one ends
/// before its send, the second one's start of round 1 stops, because that message was not sent.
pub fn some_runs()
    ensures meeting { SomeMeetingEnds }
    ensures lists { SomeListEnds }
{}
