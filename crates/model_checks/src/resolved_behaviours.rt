//! The behaviours of threads; a cache resolves each once for all threads of one implementation.
ghost use Rattle.std.specs.Prelude.{◌≡◌, ℕ, IfOk, OnOk, Some, nat_eq};
ghost use Rattle.std.specs.Map.{lookup};
ghost use Rattle.pals_base.specs.declared.behaviour.BehaviourParts.{BehaviourParts};
ghost use Rattle.pals_base.specs.BehaviourRules.{IsBehaviour};
ghost use Rattle.aadl_tree.specs.Declarations.{Implementation};
ghost use Rattle.aadl_tree.specs.proof.PackageViews.{placed};
ghost use Rattle.aadl_names.specs.NameResolution.{implementation_at};
ghost use Rattle.model_violations.specs.ThreadBehaviours.{IsSmall};
ghost use Rattle.design_laws.specs.InstanceDesigns.{HasRules, thread_behaviour};
ghost use Rattle.model_checks.specs.proof.ThreadSizeLimits.{IsWithinLimits};
ghost use Rattle.model_checks.specs.proof.CachedBehaviours.{behaviour_at, AreKept};

use aadl_instance::ThreadAt;
use aadl_uses::Uses;
use indexmap::IndexMap;
use model_violations::chain_ends::component_number;
use model_violations::resolve_implementation;
use pals_base::{Behaviour, ItemList, NoMemory, TryClone};
use std::alloc::Global;

/// Returns the behaviour of a thread, if it has one. For the first thread of an implementation, the behaviour
/// is resolved and cached. Errors: out of memory.
pub fn behaviour(
    alloc: Global,
    uses: &Uses<'_>,
    kept: &mut IndexMap<usize, Behaviour>,
    thread: &ThreadAt,
) -> Result<Option<Behaviour>, NoMemory>
    requires limits { IsWithinLimits (placed uses.now.names.tree.now) thread.now }
    requires rules { HasRules (placed uses.now.names.tree.now) thread.now }
    requires kept { AreKept (placed uses.now.names.tree.now) kept.old.entries }
    ensures value { IfOk result (λ found. found ≡ thread_behaviour (placed uses.now.names.tree.now) thread.now) }
    ensures kept { OnOk result (AreKept (placed uses.now.names.tree.now) kept.new.entries) }
{
    let Some(number) = component_number(uses, thread) else {
        return Ok(None);
    };
    match kept_behaviour(alloc, kept, number)? {
        Some(behaviour) => Ok(Some(behaviour)),
        None => {
            let found = resolve(alloc, uses, kept, number)?;
            Ok(found)
        }
    }
}

// The cached behaviour of the implementation with a number, if there is one.
fn kept_behaviour(
    alloc: Global,
    kept: &IndexMap<usize, Behaviour>,
    number: usize,
) -> Result<Option<Behaviour>, NoMemory>
    ensures { IfOk result (λ found. found ≡ lookup (nat_eq number) kept.now.entries) }
{
    match kept.get(&number) {
        Some(behaviour) => Ok(Some(behaviour.try_clone(alloc)?)),
        None => Ok(None),
    }
}

// Resolves the behaviour of the implementation with a number, if it has one, and caches it.
fn resolve(
    alloc: Global,
    uses: &Uses<'_>,
    kept: &mut IndexMap<usize, Behaviour>,
    number: usize,
) -> Result<Option<Behaviour>, NoMemory>
    requires small { (x : Implementation ℕ) → implementation_at (placed uses.now.names.tree.now) number ≡ Some x
        → IsSmall (placed uses.now.names.tree.now) x }
    requires rules { (b : BehaviourParts) → behaviour_at (placed uses.now.names.tree.now) number ≡ Some b
        → IsBehaviour b }
    requires kept { AreKept (placed uses.now.names.tree.now) kept.old.entries }
    ensures value { IfOk result (λ found. found ≡ behaviour_at (placed uses.now.names.tree.now) number) }
    ensures kept { OnOk result (AreKept (placed uses.now.names.tree.now) kept.new.entries) }
{
    let mut found = ItemList::new(alloc);
    let Some(parts) = resolve_implementation(alloc, uses, number, &mut found)? else {
        return Ok(None);
    };
    let behaviour = Behaviour::new(alloc, parts)?;
    kept.insert(number, behaviour.try_clone(alloc)?)?;
    Ok(Some(behaviour))
}
