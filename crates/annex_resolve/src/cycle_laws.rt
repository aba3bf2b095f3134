//! The law on cycles of states: the search finds all cycles and no others. It is the contract of a function
//! that does nothing.
ghost use Rattle.std.specs.Prelude.{◌≡◌, ◌↔◌, ℕ, suc, true};
ghost use Rattle.pals_base.specs.declared.behaviour.BehaviourParts.{BehaviourParts};
ghost use Rattle.pals_base.specs.BehaviourRules.{IsWay};
ghost use Rattle.annex_resolve.specs.IncompleteStateCycles.{is_on_cycle};

/// A state is marked as on a cycle if and only if a path through states that are not complete returns to it.
pub fn cycles_are_found()
    ensures { (b : BehaviourParts) (s : ℕ) → (is_on_cycle b s ≡ true) ↔ ((n : ℕ) × IsWay b (suc n) s s) }
{}
