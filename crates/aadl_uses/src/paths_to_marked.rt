//! The paths to marked declarations below others.
ghost use Rattle.std.specs.Prelude.{◌≡◌, ◌<◌, ◌++◌, ◌∷◌, [], ℕ, false, length, map, slice_index_or, slice_set};
ghost use Rattle.std.specs.Prelude.{Contains, IfOk, OnOk};
ghost use Rattle.aadl_uses.specs.proof.MarkedPathCounts.{IsMarkedAt, own_paths};
ghost use Rattle.aadl_uses.specs.proof.OrderedLists.{AreListed};
ghost use Rattle.aadl_uses.specs.ThreadsBelow.{path_before};
ghost use Rattle.aadl_uses.specs.proof.ContainmentOrders.{IsOrder};
ghost use Rattle.aadl_uses.specs.proof.MarkedPathLists as spec;
ghost use Rattle.aadl_uses.specs.proof.MarkedPathLists.{IsClosed, AreKnown};

use crate::Containment;
use indexmap::IndexSet;
use std::alloc::{AllocError, Global};
use std::marker::Model;

/// For each declaration, by its number, paths of subcomponents that lead down from it, each with the outermost
/// subcomponent first. The model is the list of these lists.
#[derive(Drop)]
pub struct Paths {
    rows: Vec<Vec<Vec<usize>>>,
}

impl Model for Paths {
    ghost use Rattle.std.specs.Prelude.{List, ℕ, map};

    ghost Value = { List (List (List ℕ)) };

    ghost view = { λ paths. map (λ row. map (λ path. path.items) row.items) paths.rows.items };
}

impl Paths {
    // No paths from any of `len` declarations.
    fn none(alloc: Global, len: usize) -> Result<Paths, AllocError>
        ensures { IfOk result (λ paths. length paths ≡ len) }
    {
        let mut rows = Vec::new(alloc);
        for _at in 0..len {
            rows.push(Vec::new(alloc))?;
        }
        Ok(Paths { rows })
    }

    // Replaces the paths of a declaration.
    fn put(&mut self, number: usize, row: Vec<Vec<usize>>)
        requires { number < length self.old }
        ensures { self.new ≡ slice_set self.old number (map (λ path. path.items) row.items) }
    {
        self.rows[number] = row;
    }

    /// Returns the paths from a declaration.
    pub fn from(&self, number: usize) -> &[Vec<usize>]
        ensures { map (λ path. path.items) result.now ≡ spec.paths_from self.now number }
    {
        match self.rows.get(number) {
            Some(row) => row.as_slice(),
            None => &[],
        }
    }
}

/// Returns the paths from each declaration in use to the marked ones below it, including itself, in depth-first
/// order. Precondition: every declaration that a declaration in use contains is in use. Errors: out of memory.
pub fn paths_below(
    alloc: Global,
    graph: &Containment,
    marks: &[bool],
    order: &IndexSet<usize>,
    used: &IndexSet<usize>,
) -> Result<Paths, AllocError>
    requires order { IsOrder graph.now order.now.keys }
    requires closed { IsClosed graph.now used.now.keys }
    ensures { IfOk result (λ paths. (n : ℕ) → n < length graph.now → Contains used.now.keys n
        → AreListed (IsMarkedAt graph.now marks.now n) path_before (spec.paths_from paths n)) }
{
    let mut paths = Paths::none(alloc, graph.len())?;
    for at in 0..order.len() {
        if let Some(number) = order.get_index(at) {
            let number = *number;
            if used.contains(&number) {
                let row = paths_of(alloc, graph, marks, &paths, number)?;
                paths.put(number, row);
            }
        }
    }
    Ok(paths)
}

// The paths from a declaration, from the paths of the declarations that it contains.
fn paths_of(
    alloc: Global,
    graph: &Containment,
    marks: &[bool],
    paths: &Paths,
    number: usize,
) -> Result<Vec<Vec<usize>>, AllocError>
    requires { AreKnown graph.now marks.now paths.now number }
    ensures { IfOk result (λ row. AreListed (IsMarkedAt graph.now marks.now number) path_before
        (map (λ path. path.items) row.items)) }
{
    let mut row = own_path(alloc, marks, number)?;
    for (sub, target) in graph.targets(number).iter().enumerate() {
        if let Some(below) = *target {
            add_below(alloc, &mut row, sub, paths.from(below))?;
        }
    }
    Ok(row)
}

// The weight of the empty path, if the declaration itself is marked.
fn own_path(alloc: Global, marks: &[bool], number: usize) -> Result<Vec<Vec<usize>>, AllocError>
    ensures { IfOk result (λ row. map (λ path. path.items) row.items
        ≡ own_paths (slice_index_or marks.now number false)) }
{
    let mut row = Vec::new(alloc);
    if let Some(true) = marks.get(number) {
        row.push(Vec::new(alloc))?;
    }
    Ok(row)
}

// Adds the paths that begin with a subcomponent.
fn add_below(
    alloc: Global,
    row: &mut Vec<Vec<usize>>,
    sub: usize,
    below: &[Vec<usize>],
) -> Result<(), AllocError>
    ensures { OnOk result (map (λ path. path.items) row.new.items
        ≡ map (λ path. path.items) row.old.items ++ map (λ path. sub ∷ path.items) below.now) }
{
    for path in below {
        row.push(through(alloc, sub, path.as_slice())?)?;
    }
    Ok(())
}

// The path that begins with a subcomponent.
fn through(alloc: Global, sub: usize, path: &[usize]) -> Result<Vec<usize>, AllocError>
    ensures { IfOk result (λ longer. longer.items ≡ sub ∷ path.now) }
{
    let mut longer = Vec::new(alloc);
    longer.push(sub)?;
    longer.extend_from_slice(path)?;
    Ok(longer)
}
