//! Laws of lists of events, with readings or without, and of loose worlds. The functions do nothing: their
//! contracts are the laws.
ghost use Rattle.loose_world.specs.proof.WorldLaws.{StepCounts, EventsReplay, RoundsAreFinished, RoundsAreSent};
ghost use Rattle.loose_world.specs.proof.WorldLaws.{FinishedRows, CommonRows, RoundsWithoutNodes, SendsAreInFlight};
ghost use Rattle.loose_world.specs.proof.WorldLaws.{LinesAreTold, WorldIsTold, TextIsTold, StopIsTold};
ghost use Rattle.loose_world.specs.proof.JournalReplays.{JournalReplays};
ghost use Rattle.loose_world.specs.proof.FinishedWorldReports.{WorldIsReported, WorldTextIsReported};
ghost use Rattle.loose_world.specs.proof.EventsAsSteps.{EventsAreSteps};
ghost use Rattle.loose_world.specs.proof.UniqueEnds.{OneEnd};

/// A finish adds one to the steps that its node has finished, a send one to the rounds that its node
/// has sent, and every other event leaves both.
pub fn step_counts()
    ensures { StepCounts }
{}

/// What events leave agrees with the composition, and its journal replays to it. A node has finished as
/// many rounds as its finishes make up, and has sent as many as it has sends.
pub fn events_are_counted()
    ensures replay { EventsReplay }
    ensures finished { RoundsAreFinished }
    ensures sent { RoundsAreSent }
{}

/// The rows of the rounds that some node has finished are the rows of the world; the rows of the rounds
/// that every node has finished are a report of the composition. Without nodes these are all rounds of the run.
pub fn rows_are_told()
    ensures world { FinishedRows }
    ensures common { CommonRows }
    ensures none { RoundsWithoutNodes }
{}

/// After a send each link from its node has a copy in flight, of the round and message that the number of
/// sends determines; so the lines are the lines of the world.
pub fn messages_are_told()
    ensures in_flight { SendsAreInFlight }
    ensures lines { LinesAreTold }
{}

/// The rows and the lines of messages after events are the text of the world, so also if all events of a
/// loose world happen; if an event gives a stop, the rows of the rounds that every node has finished are a
/// report.
pub fn texts_are_told()
    ensures world { WorldIsTold }
    ensures all { TextIsTold }
    ensures stopped { StopIsTold }
{}

/// If all components have finished the same rounds, the rows of a world are the rows of the report that
/// `sync` prints for these rounds.
pub fn worlds_are_reported()
    ensures rows { WorldIsReported }
    ensures text { WorldTextIsReported }
{}

/// However a list of loose events ends, the journal replays to the state of the bus, up to and including
/// the event that gives a stop, and the bus agrees with the composition.
pub fn journals_are_replayed()
    ensures { JournalReplays }
{}

/// What happens on the bus of a run, whatever codes its nodes have, is steps of the bus machine from the
/// run's opening on, and the journal has their entries.
pub fn events_are_steps()
    ensures { EventsAreSteps }
{}

/// A list of loose events has exactly one end: one stop, or one event that is not allowed and its fault, or
/// neither. If all events are steps, or one gives a stop, they lead to one state and have one journal.
pub fn one_end()
    ensures { OneEnd }
{}
