//! An order of declarations in which each follows the declarations that it contains.
ghost use Rattle.std.specs.Prelude.{◌≡◌, ℕ, length, IfOk, OnOk};
ghost use Rattle.std.specs.List.{list_all};
ghost use Rattle.aadl_uses.specs.proof.ContainmentGraphs.{IsWithin, LeadsBack};
ghost use Rattle.aadl_uses.specs.proof.ContainmentOrders as spec;
ghost use Rattle.aadl_uses.specs.proof.ContainmentOrders.{IsOrder, IsPlaced, ArePlaced};

use crate::containment::Containment;
use crate::declaration_levels::finished;
use indexmap::IndexSet;
use std::alloc::{AllocError, Global};

/// Returns all declarations, each after the declarations that its subcomponents name. Precondition: no
/// declaration contains itself. Errors: out of memory.
pub fn order(alloc: Global, graph: &Containment) -> Result<IndexSet<usize>, AllocError>
    requires within { IsWithin graph.now }
    requires acyclic { (n s : ℕ) → ¬ LeadsBack graph.now n s }
    ensures { IfOk result (λ order. IsOrder graph.now order.keys) }
{
    let mut order = IndexSet::new(alloc);
    place_guessed(alloc, &mut order, graph)?;
    for _turn in 0..graph.len() {
        if order.len() < graph.len() {
            place_each(&mut order, graph)?;
        }
    }
    Ok(order)
}

// Places declarations in the order of a guess, which is a valid order if no declaration contains itself.
fn place_guessed(
    alloc: Global,
    order: &mut IndexSet<usize>,
    graph: &Containment,
) -> Result<(), AllocError>
    ensures { OnOk result (ArePlaced graph.now 0 order.old.keys order.new.keys) }
{
    let numbers = finished(alloc, graph)?;
    for number in &numbers {
        place(order, graph, *number)?;
    }
    Ok(())
}

// Places each declaration that can be placed.
fn place_each(order: &mut IndexSet<usize>, graph: &Containment) -> Result<(), AllocError>
    ensures { OnOk result (ArePlaced graph.now (length graph.now) order.old.keys order.new.keys) }
{
    for number in 0..graph.len() {
        place(order, graph, number)?;
    }
    Ok(())
}

// Places a declaration if all targets of its subcomponents are placed.
fn place(order: &mut IndexSet<usize>, graph: &Containment, number: usize) -> Result<(), AllocError>
    ensures { OnOk result (IsPlaced graph.now number order.old.keys order.new.keys) }
{
    if number < graph.len() && are_there(order, graph.targets(number)) {
        order.insert(number)?;
    }
    Ok(())
}

// Whether all targets are placed.
fn are_there(order: &IndexSet<usize>, targets: &[Option<usize>]) -> bool
    ensures { result ≡ list_all (spec.is_there order.now.keys) targets.now }
{
    targets.iter().all(|target| is_there(order, *target))
}

fn is_there(order: &IndexSet<usize>, target: Option<usize>) -> bool
    ensures { result ≡ spec.is_there order.now.keys target }
{
    match target {
        Some(number) => order.contains(&number),
        None => true,
    }
}
