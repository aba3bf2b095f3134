//! Laws of the machine. The functions do nothing: their contracts are the laws.
ghost use Rattle.bus_machine.specs.proof.AgreementLaws.{OpeningAgrees, StepKeepsAgreement, ReplayAgrees};
ghost use Rattle.bus_machine.specs.proof.TargetExamples.{NodesHaveTargets};
ghost use Rattle.bus_machine.specs.proof.StoppedCounterRuns.{counters, early_arrival, early_lines, lost_message};
ghost use Rattle.bus_machine.specs.proof.StoppedCounterRuns.{lost_lines, Tells};

/// Two counters, the second of which has not started when the first one's message arrives: the run
/// stops early.
pub fn early_arrival()
    ensures { Tells (counters 1) early_arrival early_lines }
{}

/// Two counters, one of which gets its message twice, and the other loses it: the run stops at the
/// round that misses it.
pub fn lost_message()
    ensures { Tells (counters 2) lost_message lost_lines }
{}

/// At its opening a run agrees with the composition; each step keeps the agreement, losses and
/// repeats included; so whatever a journal replays to agrees.
pub fn runs_agree()
    ensures opening { OpeningAgrees }
    ensures step { StepKeepsAgreement }
    ensures replay { ReplayAgrees }
{}

/// The targets of a node of one step in a round, and of one of four.
pub fn node_targets()
    ensures { NodesHaveTargets }
{}
