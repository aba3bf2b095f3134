//! The law of the machine that runs step code. It is the contract of a function that does nothing.
ghost use Rattle.std.specs.Prelude.{List};
ghost use Rattle.step_code.specs.declared.instr.CodeParts.{CodeParts};
ghost use Rattle.bus_machine.specs.RunParameters.{Run};
ghost use Rattle.bus_machine.specs.proof.AgreementLaws.{IsRunOf};
ghost use Rattle.pals_bus.specs.proof.StepCodesOfNodes.{AreCodes};
ghost use Rattle.code_machine.specs.proof.CodeMachine.{SameReplays, NoneIsStuck};

/// With codes that mean what the components do, the machine that runs the codes makes the same states by the
/// same journals, and no step of a code gets stuck.
pub fn step_code_makes_the_same_steps()
    ensures same { (run : Run) (codes : List CodeParts) → IsRunOf run → AreCodes run.design codes → SameReplays run codes }
    ensures never_stuck { (run : Run) (codes : List CodeParts) → IsRunOf run → AreCodes run.design codes → NoneIsStuck run codes }
{}
