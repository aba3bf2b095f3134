//! Violations sorted by position, then by rule.
ghost use Rattle.std.specs.Prelude.{◌≡◌, IfOk};
ghost use Rattle.std.specs.List.Sorted.{IsSortedBy, IsStableBy};
ghost use Rattle.std.specs.Ordering.{is_lt};
ghost use Rattle.model_violations.specs.Violations.{goes_before};

use annex_resolve::Violation;
use pals_base::{ItemList, NoMemory};
use std::cmp::Ordering;

// The order of two violations.
fn compare(a: &Violation, b: &Violation) -> Ordering
    ensures { is_lt result ≡ goes_before a.now b.now }
{
    if a.at < b.at || (a.at == b.at && a.number < b.number) {
        Ordering::Less
    } else if a.at == b.at && a.number == b.number {
        Ordering::Equal
    } else {
        Ordering::Greater
    }
}

/// Sorts the violations by position, then by rule. The sort is stable. Errors: out of memory.
pub fn in_order(findings: ItemList<Violation>) -> Result<ItemList<Violation>, NoMemory>
    ensures sorted { IfOk result (λ list. IsSortedBy goes_before list) }
    ensures same { IfOk result (λ list. IsStableBy goes_before findings list) }
{
    let mut list = findings.into_vec();
    list.sort_by(|a, b| compare(a, b))?;
    Ok(ItemList::from_vec(list))
}
