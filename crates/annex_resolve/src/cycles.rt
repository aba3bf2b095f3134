//! The search for states on a cycle of states that are not complete. A table stores which states are reachable;
//! one state after another is admitted between the ends of paths.
ghost use Rattle.std.specs.Prelude.{◌≡◌, ◌<◌, ◌+◌, IfOk, false, length, map, replicate};
ghost use Rattle.pals_base.specs.SingleStep.{is_complete};
ghost use Rattle.pals_base.specs.UpwardNumbers.{upwards};
ghost use Rattle.annex_resolve.specs.IncompleteStateCycles.{reaches, is_on_cycle};
ghost use Rattle.annex_resolve.specs.proof.ReachabilityTables.{marked};

use pals_base::{BehaviourParts, ItemList, NoMemory};
use std::alloc::{AllocError, Global};

// Whether a step ends in a state. It also ends in an undeclared state.
pub(crate) fn is_complete(parts: &BehaviourParts, state: usize) -> bool
    ensures { result ≡ is_complete parts.now state }
{
    match parts.states.get(state) {
        None => true,
        Some(state) => state.complete,
    }
}

// The rows of a table for this number of states, none of which is reached.
#[tactic(auto, using(std::proofs::lemmas::List::replicate_more))]
fn empty_rows(alloc: Global, count: usize) -> Result<ItemList<ItemList<bool>>, NoMemory>
    ensures { IfOk result (λ rows. rows ≡ replicate count (replicate count false)) }
{
    let mut rows = ItemList::new(alloc);
    for _state in 0..count {
        rows.push(ItemList::from_vec(vec![in alloc; false; count]?))?;
    }
    Ok(rows)
}

// Marks one state as reachable from another. An undeclared state has no effect.
fn mark(rows: &mut ItemList<ItemList<bool>>, source: usize, target: usize)
    ensures { rows.new ≡ marked rows.old source target }
{
    if source < rows.len() {
        let row = &mut rows[source];
        if target < row.len() {
            row.set(target, true);
        }
    }
}

/// For each state, the states that are reachable by a path whose inner states are below `between`.
#[derive(Drop)]
pub struct Reachability {
    pub rows: ItemList<ItemList<bool>>,
    pub between: usize,
}

impl Reachability {
    ghost use Rattle.annex_resolve.specs.proof.ReachabilityTables.{row_of, IsTable, cell};

    // The table of single transitions.
    fn first(alloc: Global, parts: &BehaviourParts) -> Result<Reachability, NoMemory>
        ensures table { IfOk result (λ table. IsTable parts.now table) }
        ensures between { IfOk result (λ table. table.between ≡ 0) }
    {
        let mut rows = empty_rows(alloc, parts.states.len())?;
        let transitions = parts.transitions.as_slice();
        for transition in transitions {
            let source = transition.source as usize;
            if !is_complete(parts, source) {
                mark(&mut rows, source, transition.target as usize);
            }
        }
        Ok(Reachability { rows, between: 0 })
    }

    // The entry of the table.
    fn cell(&self, source: usize, target: usize) -> bool
        ensures { result ≡ cell self.now.rows source target }
    {
        match self.rows.get(source) {
            None => false,
            Some(row) => match row.get(target) {
                None => false,
                Some(reached) => *reached,
            },
        }
    }

    // Whether a path leads from one state to another.
    fn reaches(&self, parts: &BehaviourParts, source: usize, target: usize) -> bool
        requires table { IsTable parts.now self.now }
        requires source { source < length parts.now.states }
        requires target { target < length parts.now.states }
        ensures { result ≡ reaches self.now.between parts.now source target }
    {
        self.cell(source, target)
    }

    // The states that are reachable with one more inner state.
    #[tactic(auto, using(pals_base::proofs::UpwardNumbers::map_upwards_more))]
    fn next_row(
        &self,
        alloc: Global,
        parts: &BehaviourParts,
        state: usize,
    ) -> Result<ItemList<bool>, NoMemory>
        requires table { IsTable parts.now self.now }
        requires state { state < length parts.now.states }
        requires between { self.now.between < length parts.now.states }
        ensures { IfOk result (λ row. row ≡ row_of (self.now.between + 1) parts.now state) }
    {
        let between = self.between;
        let mut row = ItemList::new(alloc);
        for target in 0..parts.states.len() {
            let direct = self.reaches(parts, state, target);
            let by_way = self.reaches(parts, state, between)
                && self.reaches(parts, between, target);
            row.push(direct || by_way)?;
        }
        Ok(row)
    }

    // The table with one more inner state.
    #[tactic(auto, using(pals_base::proofs::UpwardNumbers::map_upwards_more))]
    fn next(&self, alloc: Global, parts: &BehaviourParts) -> Result<Reachability, NoMemory>
        requires table { IsTable parts.now self.now }
        requires between { self.now.between < length parts.now.states }
        ensures table { IfOk result (λ table. IsTable parts.now table) }
        ensures between { IfOk result (λ table. table.between ≡ self.now.between + 1) }
    {
        let mut rows = ItemList::new(alloc);
        for state in 0..parts.states.len() {
            rows.push(self.next_row(alloc, parts, state)?)?;
        }
        let between = self.between.checked_add(1).ok_or(AllocError)?;
        Ok(Reachability { rows, between })
    }
}

/// Returns, for each state, whether it is on a cycle of states that are not complete. Errors: out of memory.
#[tactic(auto, using(pals_base::proofs::UpwardNumbers::map_upwards_more))]
pub fn cyclic_states(alloc: Global, parts: &BehaviourParts) -> Result<ItemList<bool>, NoMemory>
    ensures { IfOk result (λ marks. marks ≡ map (is_on_cycle parts.now) (upwards 0 (length parts.now.states))) }
{
    let mut table = Reachability::first(alloc, parts)?;
    for _round in 0..parts.states.len() {
        table = table.next(alloc, parts)?;
    }
    let mut marks = ItemList::new(alloc);
    for state in 0..parts.states.len() {
        marks.push(table.reaches(parts, state, state))?;
    }
    Ok(marks)
}
