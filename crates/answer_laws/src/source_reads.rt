//! The answer of a call to the bytes that its source shows. Each law is the contract of a function with an
//! empty body.
ghost use Rattle.std.specs.Prelude.{◌≡◌, ◌↔◌, ◌<◌, ◌≤◌, ◌-◌, ◌^◌, ℕ, List, Some, true, length};
ghost use Rattle.pals_base.specs.declared.limits.TheConstants.{BUNDLE_BYTES};
ghost use Rattle.pals_runs.specs.declared.commands.Command.{Command};
ghost use Rattle.pals_top.specs.CommonAnswerTexts.{read_fault_line, too_long_line};
ghost use Rattle.pals_top.specs.Answers.{reads_source, IsCommandAnswer, IsAnswer};
ghost use Rattle.pals_top.specs.ProgramInput.{Reading};

/// The arguments are valid and read a bundle. If the source shows its remaining bytes, and its count of failed calls
/// can still rise, a call in which no read failed answers exactly these bytes, if they fit the limit of a
/// bundle, and otherwise reports at status 12 that they are too many. A call in which a read failed reports
/// this at status 9.
pub fn calls_answer_their_bytes()
    ensures read { (command : Command) (seen : Reading) (left : List ℕ) (status : ℕ) (text : List ℕ)
        → reads_source command ≡ true
        → seen.before.left ≡ Some left
        → seen.before.faults < 2 ^ 64 - 1 → seen.after.faults ≡ seen.before.faults → length left ≤ BUNDLE_BYTES
        → IsAnswer (Some command) seen status text → IsCommandAnswer command left status text }
    ensures too_long { (command : Command) (seen : Reading) (left : List ℕ) (status : ℕ) (text : List ℕ)
        → reads_source command ≡ true
        → seen.before.left ≡ Some left
        → seen.before.faults < 2 ^ 64 - 1 → seen.after.faults ≡ seen.before.faults → BUNDLE_BYTES < length left
        → IsAnswer (Some command) seen status text → (status ≡ 12) × (text ≡ too_long_line) }
    ensures failed { (command : Command) (seen : Reading) (status : ℕ) (text : List ℕ)
        → reads_source command ≡ true → (seen.after.faults ≡ seen.before.faults → ⊥)
        → IsAnswer (Some command) seen status text → (status ≡ 9) × (text ≡ read_fault_line) }
{}

/// The status of such a call is 9 if and only if a read failed, and 12 if and only if no read failed and
/// more bytes remained than a bundle may have.
pub fn statuses_of_calls()
    ensures failed { (command : Command) (seen : Reading) (status : ℕ) (text : List ℕ) → reads_source command ≡ true
        → seen.before.faults < 2 ^ 64 - 1
        → IsAnswer (Some command) seen status text → (status ≡ 9) ↔ (seen.after.faults ≡ seen.before.faults → ⊥) }
    ensures too_long { (command : Command) (seen : Reading) (left : List ℕ) (status : ℕ) (text : List ℕ)
        → reads_source command ≡ true
        → seen.before.left ≡ Some left
        → seen.before.faults < 2 ^ 64 - 1 → IsAnswer (Some command) seen status text
        → (status ≡ 12) ↔ ((seen.after.faults ≡ seen.before.faults) × (BUNDLE_BYTES < length left)) }
{}
