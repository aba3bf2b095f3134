//! A table of the transitions of a behaviour, grouped by the state that they leave.
ghost use Rattle.std.specs.Prelude.{◌≡◌, ◌<◌, ◌++◌, ◌∷◌, [], ℕ, nat_eq, IsTrue, IfOk, OnOk, length, slice_index_or};
ghost use Rattle.std.specs.Prelude.{if◌then◌else◌};

use pals_base::{Behaviour, ItemList, NoMemory};
use std::alloc::Global;
use std::marker::Model;

/// The numbers of a behaviour's transitions by the state that they leave. The model is the list of
/// the states that the transitions leave.
#[derive(Drop)]
pub struct GroupTable {
    sources: ItemList<u32>,
    groups: ItemList<ItemList<usize>>,
}

impl Model for GroupTable {
    ghost use Rattle.std.specs.Prelude.{◌≡◌, ℕ, List, [], slice_index_or};
    ghost use Rattle.behaviour_sem.specs.proof.GroupedTransitions.{numbers_of};

    ghost Value = { List ℕ };

    ghost view = { λ g. g.sources };

    ghost invariant = { λ g. (state : ℕ) → slice_index_or g.groups state [] ≡ numbers_of state 0 g.sources };
}

impl GroupTable {
    ghost use Rattle.behaviour_sem.specs.proof.GroupedTransitions.{sources_of, numbers_of};

    /// Groups the transitions of a behaviour.
    pub fn new(alloc: Global, behaviour: &Behaviour) -> Result<GroupTable, NoMemory>
        ensures { IfOk result (λ groups. groups ≡ sources_of behaviour.now.transitions) }
    {
        let parts = behaviour.parts();
        let mut groups = empty_groups(alloc, parts.states.len())?;
        let mut sources = ItemList::new(alloc);
        for transition in parts.transitions.as_slice() {
            let number = sources.len();
            sources.push(transition.source)?;
            add_number(&mut groups, transition.source as usize, number)?;
        }
        Ok(GroupTable { sources, groups })
    }

    /// Returns whether these are the groups of a behaviour's transitions.
    pub fn fits(&self, behaviour: &Behaviour) -> bool
        ensures { IsTrue result → self.now ≡ sources_of behaviour.now.transitions }
    {
        let transitions = behaviour.transitions();
        let sources = self.sources.as_slice();
        if sources.len() != transitions.len() {
            return false;
        }
        for at in 0..sources.len() {
            let transition = &transitions[at];
            if transition.source != sources[at] {
                return false;
            }
        }
        true
    }

    /// Returns the numbers of the transitions that leave a state, in the text's order.
    pub fn leaving(&self, state: u32) -> &[usize]
        ensures { result.now ≡ numbers_of state 0 self.now }
    {
        match self.groups.get(state as usize) {
            Some(numbers) => numbers.as_slice(),
            None => &[],
        }
    }
}

// Makes so many empty groups.
fn empty_groups(alloc: Global, count: usize) -> Result<ItemList<ItemList<usize>>, NoMemory>
    ensures len { IfOk result (λ groups. length groups ≡ count) }
    ensures empty { IfOk result (λ groups. (state : ℕ) → slice_index_or groups state [] ≡ []) }
{
    let mut groups = ItemList::new(alloc);
    for _ in 0..count {
        groups.push(ItemList::new(alloc))?;
    }
    Ok(groups)
}

// Adds a number to the group of a state.
fn add_number(
    groups: &mut ItemList<ItemList<usize>>,
    state: usize,
    number: usize,
) -> Result<(), NoMemory>
    requires { state < length groups.old }
    ensures len { OnOk result (length groups.new ≡ length groups.old) }
    ensures added { OnOk result ((other : ℕ) → slice_index_or groups.new other []
        ≡ (if nat_eq state other then slice_index_or groups.old other [] ++ number ∷ []
        else slice_index_or groups.old other [])) }
{
    let group = &mut groups[state];
    group.push(number)?;
    Ok(())
}
