//! Laws of the kinds of values.
ghost use Rattle.pals_model.specs.proof.CompositionLaws.Kinds.{FiringFits, MessagesFit, PartsFit, StatesFit};

/// A step of a behaviour leaves a frame whose values fit their kinds, and outputs that do, where the
/// frame and the inputs before it did: a Boolean is 0 or 1.
pub fn steps_keep_kinds()
    ensures { FiringFits }
{}

/// In a design, if the values of the root in ports have their types, so do the values of each frame, each
/// message and each part of the composition, after any number of rounds.
pub fn rounds_keep_kinds()
    ensures states { StatesFit }
    ensures messages { MessagesFit }
    ensures parts { PartsFit }
{}
