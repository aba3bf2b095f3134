//! Laws of the events and the traces of scenarios. The functions do nothing: their contracts are the laws.
ghost use Rattle.scenario_laws.specs.proof.EventAndTraceLimits.{EventsAreFew, TracesAreFew};
ghost use Rattle.scenario_laws.specs.proof.LooseEvents.{EventsAreLoose};

/// Each event of a scenario of a loose world names a node or a link of the design and is not a passing of
/// time, and their number is within the limit of a list.
pub fn events_are_loose()
    ensures { EventsAreLoose }
{}

/// The events of a scenario are no more than a list may have, whatever the command.
pub fn events_are_few()
    ensures { EventsAreFew }
{}

/// The lines of the trace of a scenario are no more than a list may have, whatever the command.
pub fn traces_are_few()
    ensures { TracesAreFew }
{}
