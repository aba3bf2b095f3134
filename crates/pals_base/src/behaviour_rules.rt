//! Checks the rules of a behaviour on its parts.
ghost use Rattle.std.specs.Prelude.{◌≡◌, ◌↔◌, length, IsTrue, IfOk, IfSome, Option, slice_get};
ghost use Rattle.std.specs.List.{list_all};
ghost use Rattle.pals_base.specs.proof.TreeViews.{trigger_of};
ghost use Rattle.pals_base.specs.UpwardNumbers.{upwards};
ghost use Rattle.pals_base.specs.SingleStep.{may_begin};
ghost use Rattle.pals_base.specs.BehaviourRules.{HasNames, value_names, has_first, has_condition, is_edge, has_ways};
ghost use Rattle.pals_base.specs.BehaviourRules.{IsAcyclic, IsBehaviour};

mod actions;
mod states;

use crate::basic_types::NoMemory;
use crate::behaviour::{Behaviour, BehaviourParts, Guard, Transition};
use crate::expression_kinds::Kinds;
use crate::item_list::ItemList;
use crate::names::{add_names, are_distinct, are_words};
use crate::text::Text;
use actions::are_sound;
use states::{are_marked, has_ways, settled_states};
use std::alloc::Global;

impl BehaviourParts {
    /// Returns whether the parts satisfy all rules of a behaviour. Errors: out of memory.
    pub fn is_behaviour(&self, alloc: Global) -> Result<bool, NoMemory>
        ensures { IfOk result (λ sound. IsTrue sound ↔ IsBehaviour self.now) }
    {
        Ok(
            self.has_names(alloc)?
                && self.has_firsts()
                && self.may_start()
                && self.has_edges()?
                && self.has_ways()
                && self.is_acyclic(alloc)?,
        )
    }

    // The names of ports, variables and states are words, and distinct.
    fn has_names(&self, alloc: Global) -> Result<bool, NoMemory>
        ensures { IfOk result (λ named. IsTrue named ↔ HasNames self.now) }
    {
        let values = self.value_names(alloc)?;
        Ok(
            are_words(values.as_slice())
                && are_distinct(values.as_slice())
                && are_words(self.states.as_slice())
                && are_distinct(self.states.as_slice()),
        )
    }

    // The names of the ports and the variables.
    fn value_names(&self, alloc: Global) -> Result<ItemList<Text>, NoMemory>
        ensures { IfOk result (λ names. names ≡ value_names self.now) }
    {
        let mut names = ItemList::new(alloc);
        add_names(alloc, &mut names, self.ins.as_slice())?;
        add_names(alloc, &mut names, self.outs.as_slice())?;
        add_names(alloc, &mut names, self.vars.as_slice())?;
        Ok(names)
    }

    // Each variable's initial value fits its type.
    fn has_firsts(&self) -> bool
        ensures { result ≡ list_all has_first self.now.vars }
    {
        self.vars
            .as_slice()
            .iter()
            .all(|var| Kinds::of_literal(var.first).allows(var.kind))
    }

    // The initial state is declared and complete.
    fn may_start(&self) -> bool
        ensures { result ≡ may_begin (slice_get self.now.states self.now.initial) }
    {
        match self.states.get(self.initial as usize) {
            None => false,
            Some(state) => state.complete,
        }
    }

    // Each transition is well formed.
    fn has_edges(&self) -> Result<bool, NoMemory>
        ensures { IfOk result (λ sound. sound ≡ list_all (is_edge self.now) self.now.transitions) }
    {
        for transition in self.transitions.as_slice() {
            if !self.is_edge(transition)? {
                return Ok(false);
            }
        }
        Ok(true)
    }

    fn is_edge(&self, transition: &Transition) -> Result<bool, NoMemory>
        ensures { IfOk result (λ sound. sound ≡ is_edge self.now transition.now) }
    {
        Ok(
            (transition.source as usize) < self.states.len()
                && (transition.target as usize) < self.states.len()
                && self.has_condition(&transition.guard)
                && are_sound(&transition.acts, self, 0, 1)?,
        )
    }

    fn has_condition(&self, guard: &Guard) -> bool
        ensures { result ≡ has_condition self.now (trigger_of guard.now) }
    {
        match guard {
            Guard::Dispatch | Guard::Always => true,
            Guard::When(condition) => condition.kinds(self, 0).boolean,
        }
    }

    // Each state has the outgoing transitions that the rules require.
    #[tactic(auto, using(crate::proofs::UpwardNumbers::upwards_next))]
    fn has_ways(&self) -> bool
        ensures { result ≡ list_all (has_ways self.now) (upwards 0 (length self.now.states)) }
    {
        for state in 0..self.states.len() {
            if !has_ways(self, state) {
                return false;
            }
        }
        true
    }

    // No path outside the complete states returns to its first state: a step from any state ends.
    #[tactic(auto, using(crate::proofs::TransitionWaysAndCycles::marks_tell))]
    fn is_acyclic(&self, alloc: Global) -> Result<bool, NoMemory>
        ensures { IfOk result (λ acyclic. IsTrue acyclic ↔ IsAcyclic self.now) }
    {
        let marks = settled_states(alloc, self)?;
        Ok(are_marked(&marks))
    }
}

impl Behaviour {
    /// Creates a behaviour from parts, or returns `None` if they violate a rule. Errors: out of memory.
    pub fn try_new(alloc: Global, parts: BehaviourParts) -> Result<Option<Behaviour>, NoMemory>
        ensures some { IfOk result (λ found. IfSome found (λ behaviour. (behaviour ≡ parts) × IsBehaviour parts)) }
        ensures none { IfOk result (λ found. found ≡ Option.None → ¬ IsBehaviour parts) }
    {
        if parts.is_behaviour(alloc)? {
            Ok(Some(Behaviour::new(alloc, parts)?))
        } else {
            Ok(None)
        }
    }
}
