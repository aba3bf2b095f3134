//! What `run` answers. Each law is the contract of a function that does nothing.
ghost use Rattle.std.specs.Prelude.{◌↔◌, ℕ, Bool, List};
ghost use Rattle.pals_runs.specs.declared.commands.Command.TheVariants as command;
ghost use Rattle.pals_top.specs.ExecutionCommands as execution;
ghost use Rattle.pals_top.specs.ExecutionAnswers.{IsExecutionAnswer};
ghost use Rattle.answer_laws.specs.proof.BundleContents.{MeansScenario, HasLongCode};
ghost use Rattle.answer_laws.specs.proof.RunAnswers.{AnswersAsSync, DoneInTime, DoneTracesAreSound, DoneWithinBounds};
ghost use Rattle.answer_laws.specs.proof.RunAnswers.{IsRunStatus, NoneIsStopped, OneAnswerInTime};
ghost use Rattle.answer_laws.specs.proof.RunAnswers.{StoppedTracesAreSound};

use crate::accepted_designs::accepted_designs_keep_their_rules;
use design_laws::packages::one_design;
use run_laws::laws::runs_in_time;
use scenario_laws::scenario_suitability::scenarios_suit;

/// `run` returns 0, 6 or 7 if and only if the bundle means a scenario and no step code is too long.
pub fn statuses_of_runs()
    ensures { (root bundle : List ℕ) (trace : Bool) (status : ℕ) (text : List ℕ)
        → IsExecutionAnswer (execution.Run trace) root bundle status text
        → IsRunStatus status ↔ (MeansScenario root bundle (command.Run root trace) × (HasLongCode root bundle → ⊥)) }
{
    one_design();
}

/// If the bundle means a scenario whose run is in time, `run` has one answer without a trace, and never 6.
/// If also the picks of each node reach its last target, as they do in virtual time, and no step code is
/// too long, it returns 0 and the output of `sync`, followed by the journal in a trace. In virtual time
/// with delays within the bounds it always does.
pub fn runs_in_time_are_synchronous()
    ensures one { OneAnswerInTime }
    ensures going { NoneIsStopped }
    ensures done { DoneInTime }
    ensures sync { AnswersAsSync }
    ensures bounds { DoneWithinBounds }
{
    one_design();
    accepted_designs_keep_their_rules();
    scenarios_suit();
    runs_in_time();
}

/// The output of `run --trace` at status 0, and of `run` at status 6, is a sound trace: the verdict on its
/// lines has as many rows, and the stop that ended the run, which is the last line.
pub fn traces_of_runs_are_sound()
    ensures done { DoneTracesAreSound }
    ensures stopped { StoppedTracesAreSound }
{
    one_design();
}
