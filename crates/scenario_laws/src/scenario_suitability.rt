//! The law that a scenario that was read suits its design. The function does nothing: its contract is the law.
ghost use Rattle.scenario_laws.specs.proof.ScenarioSuitability.{ScenariosSuit};

/// A scenario that was read for a design suits it, whatever the command: its rounds are within their
/// limits, there is a list of values for each root in port and one of delays for each link, and where
/// nodes have clocks of their own, one for each, without a pick, whose readings are in their range and
/// don't fall.
pub fn scenarios_suit()
    ensures { ScenariosSuit }
{}
