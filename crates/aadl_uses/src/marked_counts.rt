//! The number of marked declarations below each declaration, up to a limit, by an induction along a containment
//! order.
ghost use Rattle.std.specs.Prelude.{◌≡◌, ◌+◌, ◌<◌, ℕ, min, length, slice_index, slice_index_or, slice_set, false, IfOk};
ghost use Rattle.aadl_uses.specs.proof.MarkedPathCounts as spec;
ghost use Rattle.aadl_uses.specs.proof.MarkedPathCounts.{AreCounted, Counted};
ghost use Rattle.aadl_uses.specs.proof.ContainmentOrders.{IsOrder};

use crate::containment::Containment;
use indexmap::IndexSet;
use std::alloc::{AllocError, Global};

/// Returns, for each declaration, the number of paths to marked declarations, including the empty path; `limit`
/// if there are more. Errors: out of memory.
pub fn counts_below(
    alloc: Global,
    graph: &Containment,
    marks: &[bool],
    order: &IndexSet<usize>,
    limit: usize,
) -> Result<Vec<usize>, AllocError>
    requires { IsOrder graph.now order.now.keys }
    ensures { IfOk result (λ counts. (n : ℕ) → n < length graph.now
        → Counted limit graph.now marks.now n (slice_index counts.items n)) }
{
    let mut counts = zeros(alloc, graph.len())?;
    for at in 0..order.len() {
        if let Some(number) = order.get_index(at) {
            let number = *number;
            let count = count_below(graph, marks, counts.as_slice(), number, limit);
            put(&mut counts, number, count);
        }
    }
    Ok(counts)
}

// A list of `len` zeros.
fn zeros(alloc: Global, len: usize) -> Result<Vec<usize>, AllocError>
    ensures { IfOk result (λ counts. length counts.items ≡ len) }
{
    let mut counts = Vec::new(alloc);
    for _at in 0..len {
        counts.push(0)?;
    }
    Ok(counts)
}

// Replaces a count by another.
fn put(counts: &mut Vec<usize>, number: usize, count: usize)
    requires { number < length counts.old.items }
    ensures { counts.new.items ≡ slice_set counts.old.items number count }
{
    counts[number] = count;
}

// The count of a declaration, from the counts of the declarations that it contains.
fn count_below(
    graph: &Containment,
    marks: &[bool],
    counts: &[usize],
    number: usize,
    limit: usize,
) -> usize
    requires { AreCounted limit graph.now marks.now counts.now number }
    ensures { Counted limit graph.now marks.now number result }
{
    let mut count = own_count(marks, number, limit);
    for target in graph.targets(number) {
        count = add_up_to(limit, count, count_of(counts, *target));
    }
    count
}

// The count of a declaration by itself.
fn own_count(marks: &[bool], number: usize, limit: usize) -> usize
    ensures { result ≡ spec.own_count limit (slice_index_or marks.now number false) }
{
    match marks.get(number) {
        Some(true) => limit.min(1),
        Some(false) => 0,
        None => 0,
    }
}

// The count of the declaration that a subcomponent names.
fn count_of(counts: &[usize], target: Option<usize>) -> usize
    ensures { result ≡ spec.count_of counts.now target }
{
    match target {
        Some(number) => match counts.get(number) {
            Some(count) => *count,
            None => 0,
        },
        None => 0,
    }
}

/// Returns the sum of two counts, or the limit if the sum exceeds it.
pub fn add_up_to(limit: usize, a: usize, b: usize) -> usize
    ensures { result ≡ min limit (a + b) }
{
    if a >= limit || b >= limit - a {
        limit
    } else {
        a + b
    }
}
