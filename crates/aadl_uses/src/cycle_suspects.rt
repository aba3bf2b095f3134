//! Subcomponents that may lead back to the declaration that contains them, and the test whether one does.
ghost use Rattle.std.specs.Prelude.{◌≡◌, ◌<◌, ◌↔◌, ℕ, length, false, true, IsTrue, IfOk, OnOk, Contains};
ghost use Rattle.std.specs.List.{list_any};
ghost use Rattle.aadl_uses.specs.proof.ContainmentGraphs.{targets_in, IsWithin, LeadsBack};
ghost use Rattle.aadl_uses.specs.proof.RecursionSuspects as spec;
ghost use Rattle.aadl_uses.specs.proof.RecursionSuspects.{AreSuspected};

use crate::containment::Containment;
use crate::declaration_levels::levels;
use crate::reached_declarations::reached;
use std::alloc::{AllocError, Global};

/// Returns candidates for cycles: all subcomponents that lead back to the declaration that contains them, and
/// possibly others. Each is the number of its declaration and its own number there. Errors: out of memory.
pub fn suspects(alloc: Global, graph: &Containment) -> Result<Vec<(usize, usize)>, AllocError>
    ensures { IfOk result (λ found. (n s : ℕ) → LeadsBack graph.now n s → Contains found.items (n, s)) }
{
    let levels = levels(alloc, graph)?;
    let any = rises(graph, levels.as_slice());
    let mut found = Vec::new(alloc);
    for number in 0..graph.len() {
        add_suspects(&mut found, graph, levels.as_slice(), any, number)?;
    }
    Ok(found)
}

/// Returns whether a subcomponent leads back to the declaration that contains it. Errors: out of memory.
pub fn leads_back(
    alloc: Global,
    graph: &Containment,
    number: usize,
    sub: usize,
) -> Result<bool, AllocError>
    requires { IsWithin graph.now }
    ensures { IfOk result (λ leads. IsTrue leads ↔ LeadsBack graph.now number sub) }
{
    let Some(below) = graph.below(number, sub) else {
        return Ok(false);
    };
    let found = reached(alloc, graph, below)?;
    Ok(found.contains(&number))
}

// The level of a declaration.
fn level_of(levels: &[usize], number: usize) -> usize
    ensures { result ≡ spec.level_in levels.now number }
{
    match levels.get(number) {
        Some(level) => *level,
        None => 0,
    }
}

// Whether a subcomponent names a declaration of a higher level.
fn is_above(levels: &[usize], level: usize, target: Option<usize>) -> bool
    ensures { result ≡ spec.is_above levels.now level target }
{
    match target {
        Some(below) => level < level_of(levels, below),
        None => false,
    }
}

// Whether some subcomponent of a declaration names a declaration of a higher level.
fn rises_from(graph: &Containment, levels: &[usize], number: usize) -> bool
    ensures { result ≡ list_any (spec.is_above levels.now (spec.level_in levels.now number))
        (targets_in graph.now number) }
{
    let level = level_of(levels, number);
    graph
        .targets(number)
        .iter()
        .any(|target| is_above(levels, level, *target))
}

// Whether some declaration contains a declaration of a higher level.
fn rises(graph: &Containment, levels: &[usize]) -> bool
    ensures { result ≡ false
        → (n : ℕ) → n < length graph.now → list_any (spec.is_above levels.now (spec.level_in levels.now n))
        (targets_in graph.now n) ≡ false }
{
    for number in 0..graph.len() {
        if rises_from(graph, levels, number) {
            return true;
        }
    }
    false
}

// Whether a subcomponent of a declaration may lead back.
fn is_suspect(levels: &[usize], any: bool, number: usize, below: Option<usize>) -> bool
    ensures { result ≡ spec.is_suspect levels.now any number below }
{
    match below {
        Some(below) => any || level_of(levels, number) <= level_of(levels, below),
        None => false,
    }
}

// Adds the subcomponents of a declaration that may lead back.
fn add_suspects(
    found: &mut Vec<(usize, usize)>,
    graph: &Containment,
    levels: &[usize],
    any: bool,
    number: usize,
) -> Result<(), AllocError>
    ensures { OnOk result (AreSuspected graph.now levels.now any number (length (targets_in graph.now number))
        found.old.items found.new.items) }
{
    for sub in 0..graph.targets(number).len() {
        if is_suspect(levels, any, number, graph.below(number, sub)) {
            found.push((number, sub))?;
        }
    }
    Ok(())
}
