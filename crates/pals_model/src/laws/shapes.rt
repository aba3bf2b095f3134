//! Laws of the shapes of frames, inputs, messages and parts.
ghost use Rattle.pals_model.specs.proof.CompositionLaws.Shapes.{InputsAreVectors, StateHasShape, StepsGiveTuples};
ghost use Rattle.pals_model.specs.proof.CompositionLaws.Shapes.{MessageHasRate, WaitingMessageHasRate, PartHasShape};

/// In each round a component has an input vector for each of its steps, with a place for each in
/// port, and its steps give a tuple for each out port.
pub fn rounds_have_shapes()
    ensures inputs { InputsAreVectors }
    ensures outputs { StepsGiveTuples }
{}

/// In a design each frame has its behaviour's shape after any number of rounds.
pub fn states_have_shapes()
    ensures { StateHasShape }
{}

/// In a design each message has a place for each step of its source; so has what waits on a link
/// before the first round.
pub fn messages_have_rates()
    ensures message { MessageHasRate }
    ensures waiting { WaitingMessageHasRate }
{}

/// In a design a part has the frame after the round, and a tuple for each tap of its component.
pub fn parts_have_shapes()
    ensures { PartHasShape }
{}
