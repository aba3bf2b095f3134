//! Laws of sequences of steps.
ghost use Rattle.std.specs.Prelude.{◌≡◌, ◌<◌, ℕ, List, [], ◌∷◌, ◌++◌, length, take, replicate, fold, Some};
ghost use Rattle.pals_base.specs.declared.basic_types.Trap.{Trap};
ghost use Rattle.pals_base.specs.declared.frames.Frame.{Frame};
ghost use Rattle.pals_base.specs.declared.basic_types.PortValue.{PortValue};
ghost use Rattle.pals_base.specs.declared.behaviour.BehaviourParts.{BehaviourParts};
ghost use Rattle.pals_base.specs.SingleStep.{fire, holding, silence};
ghost use Rattle.pals_base.specs.StepSequences.{frame_after, outputs};
ghost use Rattle.pals_base.specs.Tuples.{columns, so_far, with_places};
ghost use Rattle.pals_base.specs.declared.basic_types.PortValue.TheVariants.{Absent};

/// Steps are sequential: no step depends on later inputs, and later steps start from the frame after the
/// earlier ones.
pub fn steps_one_after_another()
    ensures first { (b : BehaviourParts) (frame : Frame) (vectors : List (List PortValue)) (count : ℕ)
        → take count (outputs b frame vectors) ≡ outputs b frame (take count vectors) }
    ensures later_frame { (b : BehaviourParts) (frame : Frame) (xs ys : List (List PortValue))
        → frame_after b frame (xs ++ ys) ≡ frame_after b (frame_after b frame xs) ys }
    ensures later_outputs { (b : BehaviourParts) (frame : Frame) (xs ys : List (List PortValue))
        → outputs b frame (xs ++ ys) ≡ outputs b frame xs ++ outputs b (frame_after b frame xs) ys }
{}

/// A halted frame remains halted: every further step only holds its inputs, and no out port has a value.
pub fn halted_frame_stays()
    ensures step { (b : BehaviourParts) (frame : Frame) (trap : Trap) (inputs : List PortValue) → frame.halt ≡ Some trap
        → fire b frame inputs ≡ record { frame = record frame { held = holding frame.held inputs }; outs = silence b } }
    ensures frame { (b : BehaviourParts) (frame : Frame) (trap : Trap) (vectors : List (List PortValue))
        → frame.halt ≡ Some trap
        → frame_after b frame vectors ≡ record frame { held = fold holding frame.held vectors } }
    ensures outputs { (b : BehaviourParts) (frame : Frame) (trap : Trap) (vectors : List (List PortValue))
        → frame.halt ≡ Some trap
        → outputs b frame vectors ≡ replicate (length vectors) (silence b) }
{}

/// A round proceeds one step at a time. Before its first step, all places are absent. Each step fills its own
/// place on each out port and leaves the others unchanged, even if it traps. After the last step, the tuples
/// have the outputs of all steps.
pub fn round_fills_place_by_place()
    ensures none { (ports k : ℕ) → so_far ports k [] ≡ replicate ports (replicate k Absent) }
    ensures next { (k : ℕ) (outs : List (List PortValue)) (values : List PortValue) → length outs < k
        → so_far (length values) k (outs ++ values ∷ [])
        ≡ with_places (length outs) values (so_far (length values) k outs) }
    ensures all { (ports : ℕ) (outs : List (List PortValue)) → so_far ports (length outs) outs ≡ columns ports outs }
{}
