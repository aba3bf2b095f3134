//! Laws of traces. Each is the contract of a function that does nothing.
ghost use Rattle.std.specs.Prelude.{◌≡◌, ◌≤◌, ℕ, List};
ghost use Rattle.pals_base.specs.declared.limits.TheConstants.{ROUNDS};
ghost use Rattle.pals_model.specs.declared.design.DesignParts.{DesignParts};
ghost use Rattle.pals_model.specs.declared.environment.Env.{Env};
ghost use Rattle.pals_runs.specs.declared.events_and_faults.Event.{Event};
ghost use Rattle.pals_runs.specs.declared.verdicts.TraceRule.{TraceRule};
ghost use Rattle.pals_runs.specs.declared.verdicts.Verdict.TheVariants.{Wrong};
ghost use Rattle.bus_machine.specs.RunParameters.{Run};
ghost use Rattle.bus_machine.specs.proof.AgreementLaws.{IsRunOf};
ghost use Rattle.run_laws.specs.EventLists.{IsWithin};
ghost use Rattle.run_laws.specs.TraceVerdicts.{verdict};
ghost use Rattle.run_laws.specs.Worlds.{opening_world, world_run};
ghost use Rattle.trace_laws.specs.WorldTraces.{IsCarriedInTime, IsRecorded};
ghost use Rattle.trace_laws.specs.WrongLines.{IsWrongBy};

/// A wrong line of the journal is the first that no history has; no trace begins with the lines up to a wrong
/// one. At the end, an unfinished journal is that of a history that is not over, and one whose report has a
/// wrong number of rounds is that of a history that is over.
pub fn wrong_lines_have_a_cause()
    ensures { (run : Run) (lines : List (List ℕ)) (index : ℕ) (why : TraceRule) → IsRunOf run →
        verdict run lines ≡ Wrong index why → IsWrongBy run lines index why }
{}

/// A list of timed events within the bounds leaves the journal of a history, if each arrival is put off to the
/// start that reads it. If all nodes are done, report and journal are a sound trace; if not, they are unfinished
/// and nothing else. A world's run is one whose messages take a time within the network.
pub fn worlds_are_traces()
    ensures lists { (run : Run) (events : List Event) → IsRunOf run → run.rounds ≤ ROUNDS → IsCarriedInTime run →
        IsWithin run (opening_world run) events → IsRecorded run events }
    ensures world_runs { (design : DesignParts) (env : Env) (rounds : ℕ) → IsRunOf (world_run design env rounds) →
        IsCarriedInTime (world_run design env rounds) }
{}
