//! Which pairs of a plant and a controller can be fused.
ghost use Rattle.std.specs.Prelude.{◌≡◌, ◌<◌, ◌↔◌, IsTrue, IfSome, IfNone, length};
ghost use Rattle.std.specs.List.{list_all};
ghost use Rattle.plant_fuse.specs.FusedComposition.{IsPair, AreApart, ArePairs};
ghost use Rattle.plant_fuse.specs.proof.Fusibility.{stays_inside, AreTwo, StandsApart, CanBeFused, IsFirstBad};

use pals_model::{DesignParts, Link};
use pals_runs::Pair;

/// The first pair that cannot be fused.
pub fn first_bad(design: &DesignParts, pairs: &[Pair]) -> Option<usize>
    ensures found { IfSome result (IsFirstBad design.now pairs.now) }
    ensures none { IfNone result (ArePairs design.now pairs.now) }
{
    for index in 0..pairs.len() {
        if !can_be_fused(design, pairs, index) {
            return Some(index);
        }
    }
    None
}

// Whether a pair can be fused, given the other pairs.
fn can_be_fused(design: &DesignParts, pairs: &[Pair], index: usize) -> bool
    requires { index < length pairs.now }
    ensures { IsTrue result ↔ CanBeFused design.now pairs.now index }
{
    is_pair(design, &pairs[index]) && stands_apart(pairs, index)
}

// Whether both are there, at one rate, and each link of the plant has its other end at the controller.
fn is_pair(design: &DesignParts, pair: &Pair) -> bool
    ensures { IsTrue result ↔ IsPair design.now pair.now }
{
    if !are_two(pair, design.components.len()) {
        return false;
    }
    if design.rate(pair.plant) != design.rate(pair.controller) {
        return false;
    }
    all_stay_inside(design.links.as_slice(), pair)
}

// Whether two components are named, out of `count`.
fn are_two(pair: &Pair, count: usize) -> bool
    ensures { IsTrue result ↔ AreTwo pair.now count }
{
    (pair.plant.0 as usize) < count
        && (pair.controller.0 as usize) < count
        && pair.plant.0 != pair.controller.0
}

// Whether each link of the plant has its other end at the controller.
fn all_stay_inside(links: &[Link], pair: &Pair) -> bool
    ensures { result ≡ list_all (stays_inside pair.now) links.now }
{
    links.iter().all(|link| stays_inside(link, pair))
}

// Whether the other end of a link is the controller if one end is the plant.
fn stays_inside(link: &Link, pair: &Pair) -> bool
    ensures { result ≡ stays_inside pair.now link.now }
{
    (link.source.0 != pair.plant.0 || link.target.0 == pair.controller.0)
        && (link.target.0 != pair.plant.0 || link.source.0 == pair.controller.0)
}

// Whether a pair shares no component with another.
fn stands_apart(pairs: &[Pair], index: usize) -> bool
    requires { index < length pairs.now }
    ensures { IsTrue result ↔ StandsApart pairs.now index }
{
    for (other, pair) in pairs.iter().enumerate() {
        if other != index && !are_apart(&pairs[index], pair) {
            return false;
        }
    }
    true
}

// Whether no component is in both.
fn are_apart(a: &Pair, b: &Pair) -> bool
    ensures { IsTrue result ↔ AreApart a.now b.now }
{
    a.plant.0 != b.plant.0
        && a.controller.0 != b.controller.0
        && a.plant.0 != b.controller.0
        && a.controller.0 != b.plant.0
}
