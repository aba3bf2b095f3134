//! Laws of step code: that its steps end, and how many instructions they make. Each function does nothing: its
//! contract is the law.
ghost use Rattle.std.specs.Prelude.{◌≡◌, ◌≤◌, ℕ, pos, List, [], ◌∷◌, length, Some};
ghost use Rattle.pals_base.specs.declared.frames.Frame.{Frame};
ghost use Rattle.pals_base.specs.declared.basic_types.PortValue.{PortValue};
ghost use Rattle.pals_base.specs.declared.basic_types.PortValue.TheVariants.{Present};
ghost use Rattle.pals_base.specs.SingleStep.{Fired};
ghost use Rattle.step_code.specs.declared.instr.CodeParts.{CodeParts};
ghost use Rattle.step_code.specs.SuccessorsAndWeights.{weight_of};
ghost use Rattle.step_code.specs.proof.CodeRuns.{FitsCode, exec, Leaves};
ghost use Rattle.step_code.specs.proof.StackHeights.{Member};
ghost use Rattle.step_code.specs.proof.CodePaths.{IsPath, path_weight};
ghost use Rattle.step_code.specs.InstructionsPerStep.{instructions_made};
ghost use Rattle.step_code.specs.proof.VerifierRules.{IsVerified};
ghost use Rattle.step_code.specs.proof.Examples.{counter, at_four, surface, nested};

/// A counter at 4 that gets 2 executes its nine instructions, stores 7 and outputs it.
pub fn counter_counts()
    ensures weight { weight_of counter ≡ 9 }
    ensures instructions_made { instructions_made counter at_four (Present (pos 2) ∷ []) ≡ 9 }
    ensures step { exec counter at_four (Present (pos 2) ∷ [])
        ≡ Leaves (record {
          frame = record at_four { vars = pos 7 ∷ []; held = pos 2 ∷ [] };
          outs = Present (pos 7) ∷ [];
        }) }
{}

/// The weight of a path is the sum of its instructions, each as often as the loops around it repeat.
pub fn worked_weights()
    ensures surface { weight_of surface ≡ 16 }
    ensures nested { weight_of nested ≡ 44 }
{}

/// A step of verified code is never stuck and never unfinished: it leaves a frame and outputs.
pub fn verified_code_ends()
    ensures { (c : CodeParts) (frame : Frame) (inputs : List PortValue)
        → IsVerified c → FitsCode c frame → length inputs ≡ c.ins
        → (f : Fired) × (exec c frame inputs ≡ Leaves f) }
{}

/// A step makes at most as many instructions as the code weighs.
pub fn step_is_within_weight()
    ensures { (c : CodeParts) (frame : Frame) (inputs : List PortValue)
        → instructions_made c frame inputs ≤ weight_of c }
{}

/// No path from an entry of verified code weighs more than the code, and one weighs as much.
pub fn weight_is_the_greatest()
    ensures none_more { (c : CodeParts) (entry : ℕ) (rest : List ℕ)
        → IsVerified c → Member c.entries (Some entry) → IsPath c.instrs entry rest
        → path_weight c.instrs entry rest ≤ weight_of c }
    ensures one { (c : CodeParts) (entry : ℕ) → IsVerified c → Member c.entries (Some entry)
        → (first : ℕ) × (rest : List ℕ) × Member c.entries (Some first)
        × IsPath c.instrs first rest × (path_weight c.instrs first rest ≡ weight_of c) }
{}
