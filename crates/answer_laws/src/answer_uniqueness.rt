//! A bundle and a command other than `run` have one answer, and so has a call. Each law is the contract of a function
//! with an empty body.
ghost use Rattle.std.specs.Prelude.{◌≡◌, ◌<◌, ◌-◌, ◌^◌, ℕ, false, List, Option, Some, IfSome};
ghost use Rattle.pals_runs.specs.declared.commands.Command.{Command};
ghost use Rattle.pals_top.specs.Answers.{IsCommandAnswer, IsAnswer};
ghost use Rattle.pals_top.specs.ProgramInput.{Reading};
ghost use Rattle.pals_top.specs.proof.FlaggedAndRunCommands.{is_run};

use crate::accepted_designs::accepted_designs_keep_their_rules;
use design_laws::packages::one_design;
use design_laws::unique_faults::one_fault;
use loose_world::world_laws::one_end;
use plant_fuse::laws::one_report;
use round_budget::laws::text_is_one;
use scenario_laws::plant_laws::pairs_can_be_fused;

/// The cases of an answer exclude each other, and each has one text. So each status occurs if and only if
/// its case does, and the bundle determines the answer of every command other than `run`, byte for byte.
pub fn answer_is_decided()
    ensures { (command : Command) (bundle : List ℕ) (s t : ℕ) (a b : List ℕ) → is_run command ≡ false
        → IsCommandAnswer command bundle s a → IsCommandAnswer command bundle t b → (s ≡ t) × (a ≡ b) }
{
    one_design();
    one_fault();
    accepted_designs_keep_their_rules();
    pairs_can_be_fused();
    one_report();
    one_end();
    text_is_one();
}

/// The bytes that the program's source shows and the arguments determine the answer of a call other than
/// `run`, if the source shows its remaining bytes and its count of failed calls can still rise.
pub fn answer_of_a_call_is_decided()
    ensures { (command : Option Command) (seen : Reading) (left : List ℕ) (s t : ℕ) (a b : List ℕ)
        → IfSome command (λ c. is_run c ≡ false) → seen.before.left ≡ Some left → seen.before.faults < 2 ^ 64 - 1
        → IsAnswer command seen s a → IsAnswer command seen t b → (s ≡ t) × (a ≡ b) }
{
    answer_is_decided();
}
