//! Laws of progress of worlds. Each is the contract of a function with an empty body.
ghost use Rattle.std.specs.Prelude.{List};
ghost use Rattle.pals_runs.specs.declared.events_and_faults.Event.{Event};
ghost use Rattle.bus_machine.specs.RunParameters.{Run};
ghost use Rattle.bus_machine.specs.proof.AgreementLaws.{IsRunOf};
ghost use Rattle.run_laws.specs.Worlds.{opening_world};
ghost use Rattle.run_laws.specs.EventLists.{IsWithin, world_left};
ghost use Rattle.world_progress.specs.proof.WorldProgress.{CanGoOn, CanFinish};

/// After each list of timed events within the bounds a nanosecond can pass, or a node or a message has an event
/// within the bounds: no two bounds of an accepted design contradict each other.
pub fn time_is_never_locked()
    ensures { (run : Run) (events : List Event) → IsRunOf run → IsWithin run (opening_world run) events →
        CanGoOn run (world_left run (opening_world run) events) }
{}

/// Each list of timed events within the bounds is the first part of a list within the bounds after which all nodes
/// have done all rounds.
pub fn each_list_can_finish()
    ensures { (run : Run) (events : List Event) → IsRunOf run → IsWithin run (opening_world run) events →
        CanFinish run events }
{}
