//! A law of the plants of scenarios. The function does nothing: its contract is the law.
ghost use Rattle.scenario_laws.specs.proof.FusiblePairs.{PairsCanBeFused};

/// The plants and controllers of a scenario are pairs that can be fused, whatever the command.
pub fn pairs_can_be_fused()
    ensures { PairsCanBeFused }
{}
