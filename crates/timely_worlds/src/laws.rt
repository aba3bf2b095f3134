//! Laws of lists of timed events at given times. Each is the contract of a function with an empty body.
ghost use Rattle.std.specs.Prelude.{ℕ, ◌<◌, List, length};
ghost use Rattle.pals_runs.specs.declared.events_and_faults.Event.{Event};
ghost use Rattle.bus_machine.specs.RunParameters.{Run};
ghost use Rattle.bus_machine.specs.proof.AgreementLaws.{IsRunOf};
ghost use Rattle.run_laws.specs.Worlds.{opening_world};
ghost use Rattle.run_laws.specs.EventLists.{IsWithin};
ghost use Rattle.step_code.specs.declared.instr.CodeParts.{CodeParts};
ghost use Rattle.timely_worlds.specs.proof.EventTimes.{EventTimes, MeetBounds, SendsMeetBounds, MessagesMeetBounds};
ghost use Rattle.timely_worlds.specs.proof.ListsOnTime.{AreOnTime};
ghost use Rattle.timely_worlds.specs.proof.ServedSteps.{IsServed};

/// If each event of a list happens at its time, no time passes an event, and the times meet the bounds, the list is
/// within the bounds. So its nodes read every message, and no message is missed or early.
pub fn lists_on_time_are_within()
    ensures { (run : Run) (times : EventTimes) (events : List Event) → IsRunOf run → MeetBounds run times →
        AreOnTime run times (opening_world run) events → IsWithin run (opening_world run) events }
{}

/// If a processor that fits serves the steps of each node, in the order of its timetable and by any clocks within the
/// skew, and sends and messages meet their bounds, every list of events at these times is within the bounds.
pub fn processors_that_fit_keep_bounds()
    ensures { (run : Run) (codes : List CodeParts) (times : EventTimes) (events : List Event) → IsRunOf run →
        ((node : ℕ) → node < length run.design.components → IsServed run codes times node) →
        SendsMeetBounds run times → MessagesMeetBounds run times → AreOnTime run times (opening_world run) events →
        IsWithin run (opening_world run) events }
{}
