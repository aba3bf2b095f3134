//! The transitions of a behaviour, grouped by the state that they leave, in a table with several holders.
ghost use Rattle.std.specs.Prelude.{◌≡◌, [], IsTrue, IfOk};

use crate::group_table::GroupTable;
use pals_base::{Behaviour, NoMemory, TryClone};
use std::alloc::Global;
use std::marker::Model;
use std::sync::Arc;

/// The transitions of a behaviour by the state that they leave, so that a step visits no transition of
/// another state. The model is the list of the states that the transitions leave. Copies share one
/// table.
#[derive(Drop)]
pub struct TransitionGroups {
    table: Option<Arc<GroupTable>>,
}

impl Model for TransitionGroups {
    ghost use Rattle.std.specs.Prelude.{ℕ, List, [], option_map};
    ghost use Rattle.std.specs.Option.{unwrap_or};
    ghost use Rattle.std.specs.Arc.{arc_value};

    ghost Value = { List ℕ };

    ghost view = { λ g. unwrap_or (option_map arc_value g.table) [] };
}

impl TransitionGroups {
    ghost use Rattle.behaviour_sem.specs.proof.GroupedTransitions.{sources_of, numbers_of};

    /// Makes groups without a transition. Does not allocate.
    pub fn none() -> TransitionGroups
        ensures { result ≡ [] }
    {
        TransitionGroups { table: None }
    }

    /// Groups the transitions of a behaviour.
    pub fn new(alloc: Global, behaviour: &Behaviour) -> Result<TransitionGroups, NoMemory>
        ensures { IfOk result (λ groups. groups ≡ sources_of behaviour.now.transitions) }
    {
        let table = GroupTable::new(alloc, behaviour)?;
        Ok(TransitionGroups {
            table: Some(Arc::new(alloc, table)?),
        })
    }

    /// Returns whether these are the groups of a behaviour's transitions.
    pub fn fits(&self, behaviour: &Behaviour) -> bool
        ensures { IsTrue result → self.now ≡ sources_of behaviour.now.transitions }
    {
        match &self.table {
            Some(table) => table.fits(behaviour),
            None => false,
        }
    }

    /// Returns the numbers of the transitions that leave a state, in the text's order.
    pub fn leaving(&self, state: u32) -> &[usize]
        ensures { result.now ≡ numbers_of state 0 self.now }
    {
        match &self.table {
            Some(table) => table.leaving(state),
            None => &[],
        }
    }
}

impl TryClone for TransitionGroups {
    fn try_clone(&self, _alloc: Global) -> Result<TransitionGroups, NoMemory> {
        match &self.table {
            Some(table) => Ok(TransitionGroups {
                table: Some(Arc::try_clone(table)?),
            }),
            None => Ok(TransitionGroups { table: None }),
        }
    }
}
