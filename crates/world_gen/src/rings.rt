//! Rings: designs whose components send to one another in a circle.
ghost use Rattle.std.specs.Prelude.{◌≡◌, ◌<◌, ◌≤◌, map, IfOk};
ghost use Rattle.pals_base.specs.UpwardNumbers.{upwards};
ghost use Rattle.pals_base.specs.declared.limits.TheConstants.{COMPONENTS};
ghost use Rattle.world_gen.specs.Rings.{ring_rate, ring_adaptor, before_in, ring_path, ring_component, ring_link, ring};

use crate::ring_behaviours::ring_behaviour;
use pals_base::{Adaptor, Gamma, ItemList, Nanos, NoMemory, NodeNo, Text};
use pals_model::{Component, Design, DesignParts, Link};
use std::alloc::Global;

// A round, in nanoseconds.
const PERIOD: Nanos = 20_000_000;

// The bounds, in nanoseconds.
const BOUNDS: Gamma = Gamma {
    eps: 1_000_000,
    alpha_min: 0,
    alpha_max: 3_000_000,
    mu_min: 1_000_000,
    mu_max: 4_000_000,
};

// The number of steps of a component in a round: 1, 2 or 4.
fn rate(number: u32) -> u32
    ensures { result ≡ ring_rate number }
{
    match number % 3 {
        0 => 1,
        1 => 2,
        _ => 4,
    }
}

// How a link goes from a rate to another: a value of a slower source is repeated, and the last one
// of a faster source counts.
fn adaptor(source: u32, target: u32) -> Option<Adaptor>
    ensures { result ≡ ring_adaptor source target }
{
    if source < target {
        Some(Adaptor::Repeat)
    } else if target < source {
        Some(Adaptor::Last)
    } else {
        None
    }
}

// The component before one in the circle of n.
fn before(n: u32, number: u32) -> u32
    requires { number < n }
    ensures { result ≡ before_in n number }
{
    if number == 0 { n - 1 } else { number - 1 }
}

// The link into a component, from the one before it.
fn link(n: u32, number: u32) -> Link
    requires { number < n }
    ensures { result ≡ ring_link n number }
{
    let source = before(n, number);
    Link {
        source: NodeNo(source),
        out_port: 0,
        target: NodeNo(number),
        in_port: 0,
        adaptor: adaptor(rate(source), rate(number)),
    }
}

fn path(alloc: Global, number: u32) -> Result<Text, NoMemory>
    ensures { IfOk result (λ path. path ≡ ring_path number) }
{
    Ok(Text::new(format!(in alloc; "p.t{number}")?))
}

fn component(alloc: Global, number: u32) -> Result<Component, NoMemory>
    ensures { IfOk result (λ component. component ≡ ring_component number) }
{
    Ok(Component {
        path: path(alloc, number)?,
        rate: rate(number),
        behaviour: ring_behaviour(alloc)?,
    })
}

#[tactic(auto, using(pals_base::proofs::UpwardNumbers::map_upwards_more))]
fn components(alloc: Global, n: u32) -> Result<ItemList<Component>, NoMemory>
    ensures { IfOk result (λ components. components ≡ map ring_component (upwards 0 n)) }
{
    let mut components = ItemList::new(alloc);
    for number in 0..n {
        components.push(component(alloc, number)?)?;
    }
    Ok(components)
}

#[tactic(auto, using(pals_base::proofs::UpwardNumbers::map_upwards_more))]
fn links(alloc: Global, n: u32) -> Result<ItemList<Link>, NoMemory>
    ensures { IfOk result (λ links. links ≡ map (ring_link n) (upwards 0 n)) }
{
    let mut links = ItemList::new(alloc);
    for number in 0..n {
        links.push(link(n, number))?;
    }
    Ok(links)
}

/// The ring of n components. A component makes 1, 2 or 4 steps in a round of 20 ms, by its number
/// modulo 3. Each step adds twice its input and 1 to a number below 1000, and sends that on to the
/// next component, and the last component to the first.
pub fn ring(alloc: Global, n: u32) -> Result<Design, NoMemory>
    requires some { 2 ≤ n }
    requires most { n ≤ COMPONENTS }
    ensures { IfOk result (λ design. design ≡ ring n) }
{
    let components = components(alloc, n)?;
    let links = links(alloc, n)?;
    Ok(Design::new(DesignParts {
        period: PERIOD,
        gamma: BOUNDS,
        components,
        links,
        feeds: ItemList::new(alloc),
        taps: ItemList::new(alloc),
        ignored: ItemList::new(alloc),
    }))
}
