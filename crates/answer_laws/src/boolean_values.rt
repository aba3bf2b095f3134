//! What values the rounds of a scenario have. Each law is the contract of a function that does nothing.
ghost use Rattle.answer_laws.specs.proof.BooleansInRuns.{MessagesOfScenariosFit, PartsOfScenariosFit, ScenariosFit};
ghost use Rattle.answer_laws.specs.proof.BooleansInRuns.{StatesOfScenariosFit, FaultsOfScenariosFit};
ghost use Rattle.answer_laws.specs.proof.BooleansInRuns.{ShownOfScenariosFit, VotesOfScenariosFit, BusesOfScenariosFit};
ghost use Rattle.answer_laws.specs.proof.BooleansInRuns.{FusedOfScenariosFit};

use crate::accepted_designs::accepted_designs_keep_their_rules;
use scenario_laws::plant_laws::pairs_can_be_fused;

/// If a bundle means a design and a scenario, each Boolean of each round is 0 or 1: the scenario's values
/// for root in ports and faults, each variable, each held input, each place of a message and each output,
/// of the composition, of `vote` and of `fuse`, and in each state of the bus. So `true` and `false` in a
/// report are the only two values.
pub fn booleans_are_two_values()
    ensures given { ScenariosFit }
    ensures states { StatesOfScenariosFit }
    ensures messages { MessagesOfScenariosFit }
    ensures parts { PartsOfScenariosFit }
    ensures faults { FaultsOfScenariosFit }
    ensures votes { VotesOfScenariosFit }
    ensures shown { ShownOfScenariosFit }
    ensures fused { FusedOfScenariosFit }
    ensures buses { BusesOfScenariosFit }
{
    accepted_designs_keep_their_rules();
    pairs_can_be_fused();
}
