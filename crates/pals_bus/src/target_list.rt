//! The targets of the nodes of a run.
ghost use Rattle.std.specs.Prelude.{◌≡◌, ◌<◌, length, None, slice_index_or, slice_set};
ghost use Rattle.pals_bus.specs.proof.LeastTargets.{is_below, IsFirst, IsBound};

use pals_base::{ItemList, Nanos};
use std::marker::Model;

/// The target of each node, in order: the reading that it waits for, or works at, in nanoseconds; `None`
/// if it is done. The model is the list. A smallest target is known at any time.
#[derive(Drop)]
pub struct TargetList {
    targets: ItemList<Option<Nanos>>,
    first: usize,
}

impl Model for TargetList {
    ghost use Rattle.std.specs.Prelude.{List, Option, ℕ};

    ghost Value = { List (Option ℕ) };

    ghost use Rattle.pals_bus.specs.proof.LeastTargets.{IsFirst};

    ghost view = { λ list. list.targets };

    ghost invariant = { λ list. IsFirst list.targets list.first };
}

impl TargetList {
    /// These targets.
    pub fn new(targets: ItemList<Option<Nanos>>) -> TargetList
        ensures { result ≡ targets }
    {
        let first = first_of(targets.as_slice());
        TargetList { targets, first }
    }

    /// The target of a node; `None` if there is no such node.
    pub fn target(&self, node: usize) -> Option<Nanos>
        ensures { result ≡ slice_index_or self.now node None }
    {
        target_at(self.targets.as_slice(), node)
    }

    /// The number of a node with the smallest target, if there is a target.
    pub fn first(&self) -> usize
        ensures { IsFirst self.now result }
    {
        self.first
    }

    /// Changes a node's target. The search for the next smallest target starts at the last one: if
    /// targets rise, each is read once for each new smallest one, and once more.
    pub fn set(&mut self, node: usize, target: Option<Nanos>)
        requires { node < length self.old }
        ensures { self.new ≡ slice_set self.old node target }
    {
        let least = target_at(self.targets.as_slice(), self.first);
        self.targets.set(node, target);
        if is_below(target, least) {
            self.first = node;
            return;
        }
        self.first = first_from(self.targets.as_slice(), self.first, least);
    }
}

// A node with the smallest target, from a node on, if none is below a bound.
fn first_from(targets: &[Option<Nanos>], from: usize, bound: Option<Nanos>) -> usize
    requires { IsBound targets.now bound }
    ensures { IsFirst targets.now result }
{
    for at in from..targets.len() {
        if !is_below(bound, target_at(targets, at)) {
            return at;
        }
    }
    first_of(targets)
}

// The first node with the smallest target.
fn first_of(targets: &[Option<Nanos>]) -> usize
    ensures { IsFirst targets.now result }
{
    let mut first = 0;
    for at in 0..targets.len() {
        if is_below(target_at(targets, at), target_at(targets, first)) {
            first = at;
        }
    }
    first
}

// The target of a node; `None` if there is no such node.
fn target_at(targets: &[Option<Nanos>], node: usize) -> Option<Nanos>
    ensures { result ≡ slice_index_or targets.now node None }
{
    match targets.get(node) {
        Some(target) => *target,
        None => None,
    }
}

// Whether a target is less than another one. None is above all others.
fn is_below(target: Option<Nanos>, other: Option<Nanos>) -> bool
    ensures { result ≡ is_below target other }
{
    match target {
        None => false,
        Some(target) => match other {
            None => true,
            Some(other) => target < other,
        },
    }
}
