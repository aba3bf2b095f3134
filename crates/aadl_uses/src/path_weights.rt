//! The weight of the heaviest path to a marked declaration.
ghost use Rattle.std.specs.Prelude.{◌≡◌, ◌+◌, ◌<◌, ◌++◌, ◌∷◌, [], ℕ, None, false, length, map, min, option_map};
ghost use Rattle.std.specs.Prelude.{slice_index_or, slice_set, IfOk, OnOk};
ghost use Rattle.aadl_uses.specs.proof.ContainmentOrders.{IsOrder};
ghost use Rattle.aadl_uses.specs.proof.HeaviestPaths as spec;
ghost use Rattle.aadl_uses.specs.proof.HeaviestPaths.{IsHeaviest, AreWeighed};

use crate::Containment;
use crate::marked_counts::add_up_to;
use indexmap::IndexSet;
use std::alloc::{AllocError, Global};
use std::marker::Model;

/// For each declaration, by its number, the weights of its subcomponents, in order. The model is the list of
/// these lists.
#[derive(Drop)]
pub struct SubcomponentWeights {
    rows: Vec<Vec<usize>>,
}

impl Model for SubcomponentWeights {
    ghost use Rattle.std.specs.Prelude.{List, ℕ, map};

    ghost Value = { List (List ℕ) };

    ghost view = { λ weights. map (λ row. row.items) weights.rows.items };
}

impl SubcomponentWeights {
    /// Returns the weights of an empty list of declarations. Does not allocate.
    pub fn new(alloc: Global) -> SubcomponentWeights
        ensures { result ≡ [] }
    {
        SubcomponentWeights {
            rows: Vec::new(alloc),
        }
    }

    /// Adds a declaration with the weights of its subcomponents. Errors: out of memory.
    pub fn push(&mut self, row: Vec<usize>) -> Result<(), AllocError>
        ensures ok { OnOk result (self.new ≡ self.old ++ row.items ∷ []) }
    {
        self.rows.push(row)?;
        Ok(())
    }

    // The weight of a subcomponent.
    fn get(&self, number: usize, sub: usize) -> usize
        ensures { result ≡ spec.weight_of self.now number sub }
    {
        match self.rows.get(number) {
            Some(row) => row.get(sub).copied().unwrap_or(0),
            None => 0,
        }
    }
}

/// Returns, for each declaration, the weight of the heaviest path to a marked declaration below it, including
/// the empty path. The weight is `limit` if it exceeds the limit, and `None` if there is no such path. The
/// weight of a path is the sum of the weights of its subcomponents. Errors: out of memory.
pub fn heaviest_below(
    alloc: Global,
    graph: &Containment,
    marks: &[bool],
    order: &IndexSet<usize>,
    weights: &SubcomponentWeights,
    limit: usize,
) -> Result<Vec<Option<usize>>, AllocError>
    requires { IsOrder graph.now order.now.keys }
    ensures { IfOk result (λ found. (n : ℕ) → n < length graph.now
        → IsHeaviest limit graph.now marks.now weights.now n (slice_index_or found.items n None)) }
{
    let mut found = nothing(alloc, graph.len())?;
    for at in 0..order.len() {
        if let Some(number) = order.get_index(at) {
            let number = *number;
            let heaviest = heaviest_of(graph, marks, weights, found.as_slice(), number, limit);
            put(&mut found, number, heaviest);
        }
    }
    Ok(found)
}

// No path from any declaration.
fn nothing(alloc: Global, len: usize) -> Result<Vec<Option<usize>>, AllocError>
    ensures { IfOk result (λ found. length found.items ≡ len) }
{
    vec![in alloc; None; len]
}

// Stores the result of a declaration.
fn put(found: &mut Vec<Option<usize>>, number: usize, heaviest: Option<usize>)
    requires { number < length found.old.items }
    ensures { found.new.items ≡ slice_set found.old.items number heaviest }
{
    found[number] = heaviest;
}

// The weight of the heaviest path from a declaration, from the results of the declarations that it contains.
fn heaviest_of(
    graph: &Containment,
    marks: &[bool],
    weights: &SubcomponentWeights,
    found: &[Option<usize>],
    number: usize,
    limit: usize,
) -> Option<usize>
    requires { AreWeighed limit graph.now marks.now weights.now found.now number }
    ensures { IsHeaviest limit graph.now marks.now weights.now number result }
{
    let mut heaviest = own_weight(marks, number);
    for (sub, target) in graph.targets(number).iter().enumerate() {
        let below = found_from(found, *target);
        heaviest = heavier(heaviest, through(weights.get(number, sub), below, limit));
    }
    heaviest
}

// The weight of the empty path, if the declaration itself is marked.
fn own_weight(marks: &[bool], number: usize) -> Option<usize>
    ensures { result ≡ spec.own_weight (slice_index_or marks.now number false) }
{
    match marks.get(number) {
        Some(true) => Some(0),
        Some(false) => None,
        None => None,
    }
}

// The result of the declaration that a subcomponent names.
fn found_from(found: &[Option<usize>], target: Option<usize>) -> Option<usize>
    ensures { result ≡ spec.found_from found.now target }
{
    match target {
        Some(number) => found.get(number).copied().flatten(),
        None => None,
    }
}

// The weight of a path that begins with a subcomponent, up to the limit.
fn through(weight: usize, below: Option<usize>, limit: usize) -> Option<usize>
    ensures { result ≡ option_map (λ w. min limit (weight + w)) below }
{
    match below {
        Some(rest) => Some(add_up_to(limit, weight, rest)),
        None => None,
    }
}

// The larger of two optional weights.
fn heavier(a: Option<usize>, b: Option<usize>) -> Option<usize>
    ensures { result ≡ spec.heavier a b }
{
    match (a, b) {
        (Some(x), Some(y)) => Some(x.max(y)),
        (Some(x), None) => Some(x),
        (None, other) => other,
    }
}
