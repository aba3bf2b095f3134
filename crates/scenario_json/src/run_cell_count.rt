//! The number of output values of a run, which has a limit.
ghost use Rattle.std.specs.Prelude.{◌≡◌, ◌<◌, ◌≤◌, ◌^◌, length, sum_by};
ghost use Rattle.pals_base.specs.declared.limits.TheConstants.{COMPONENTS};
ghost use Rattle.pals_model.specs.declared.design.Link.{Link};
ghost use Rattle.pals_model.specs.declared.design.Tap.{Tap};
ghost use Rattle.pals_model.specs.PortKindsAndRates.{rate_of};
ghost use Rattle.scenario_json.specs.RunCellCount.{component_cells, cells_of};

use pals_model::{Component, Design, DesignParts, Link, Tap};

// The output values of a component in a round.
fn component_cells(component: &Component) -> u128
    ensures value { result ≡ component_cells component.now }
    ensures bound { result < 2 ^ 66 }
{
    let rate = component.rate;
    let variables = component.behaviour.vars().len();
    1 + 2 * u128::from(rate) + variables as u128
}

// The output values of components in a round.
fn of_components(components: &[Component]) -> u128
    requires { length components.now ≤ COMPONENTS }
    ensures value { result ≡ sum_by component_cells components.now }
    ensures bound { result < 2 ^ 100 }
{
    let mut sum = 0;
    for component in components {
        sum += component_cells(component);
    }
    sum
}

// The output values of links in a round.
fn of_links(design: &DesignParts, links: &[Link]) -> u128
    ensures value { result ≡ sum_by (λ (link : Link). rate_of design.now link.source.0) links.now }
    ensures bound { result < 2 ^ 100 }
{
    let mut sum = 0;
    for link in links {
        let rate = design.rate(link.source);
        sum += u128::from(rate);
    }
    sum
}

// The output values of root out ports in a round.
fn of_taps(design: &DesignParts, taps: &[Tap]) -> u128
    ensures value { result ≡ sum_by (λ (tap : Tap). rate_of design.now tap.source.0) taps.now }
    ensures bound { result < 2 ^ 100 }
{
    let mut sum = 0;
    for tap in taps {
        let rate = design.rate(tap.source);
        sum += u128::from(rate);
    }
    sum
}

/// Returns the number of output values of a run of `rounds` rounds.
pub fn cells_of(design: &Design, rounds: u64) -> u128
    requires { rounds < 2 ^ 20 }
    ensures { result ≡ cells_of design.now rounds }
{
    let parts = design.parts();
    let components = of_components(design.components());
    let links = of_links(parts, design.links());
    let taps = of_taps(parts, design.taps());
    u128::from(rounds) * (components + links + taps)
}
