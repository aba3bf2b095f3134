//! Laws of one step: it starts and ends in a frame that fits the behaviour, and its paths are short.
ghost use Rattle.std.specs.Prelude.{◌≡◌, ◌<◌, ℕ, List, length};
ghost use Rattle.pals_base.specs.declared.frames.Frame.{Frame};
ghost use Rattle.pals_base.specs.declared.basic_types.PortValue.{PortValue};
ghost use Rattle.pals_base.specs.declared.behaviour.BehaviourParts.{BehaviourParts};
ghost use Rattle.pals_base.specs.SingleStep.{fire, initial, HasShape};
ghost use Rattle.pals_base.specs.BehaviourRules.{IsBehaviour, IsWay};

/// The initial frame fits the behaviour, so its state is complete. Each step ends: the next frame fits the
/// behaviour, so its state is complete, and each out port has a value or is absent.
pub fn each_step_ends()
    ensures start { (b : BehaviourParts) → IsBehaviour b → HasShape b (initial b) }
    ensures step { (b : BehaviourParts) (frame : Frame) (inputs : List PortValue) → IsBehaviour b → HasShape b frame
        → HasShape b (fire b frame inputs).frame }
    ensures outs { (b : BehaviourParts) (frame : Frame) (inputs : List PortValue)
        → IsBehaviour b → HasShape b frame → length (fire b frame inputs).outs ≡ length b.outs }
{}

/// A path through states that are not complete has fewer transitions than there are states.
pub fn ways_are_short()
    ensures { (b : BehaviourParts) (s t n : ℕ) → IsBehaviour b → IsWay b n s t → n < length b.states }
{}
