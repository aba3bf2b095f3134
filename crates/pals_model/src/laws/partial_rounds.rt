//! Laws of a round that is under way.
ghost use Rattle.pals_model.specs.proof.CompositionLaws.PartialRounds.{RoundBegins, RoundGoesOn, RoundEnds, PlacesStay};
ghost use Rattle.pals_model.specs.proof.CompositionLaws.PartialRounds.{TrapIsSilent};

/// A component's round goes one step at a time. It begins with the state and with every place
/// absent, each step fills its own place, and after the last one its own steps are made.
pub fn round_goes_step_by_step()
    ensures begins { RoundBegins }
    ensures goes_on { RoundGoesOn }
    ensures ends { RoundEnds }
{}

/// The places that earlier steps filled stay, also where a step traps, and that step gives no value.
pub fn trap_leaves_earlier_places()
    ensures stay { PlacesStay }
    ensures silent { TrapIsSilent }
{}
