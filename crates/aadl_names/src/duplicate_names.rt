//! Names that are declared twice.
#![tactic(auto, using(crate::proofs::FirstFaultSoFar::found_append))]

ghost use Rattle.std.specs.Prelude.{◌≡◌, ◌&&◌, nat_lt, OnOk};
ghost use Rattle.std.specs.List.{list_any};
ghost use Rattle.aadl_tree.specs.Names.{same_name};
ghost use Rattle.aadl_names.specs.proof.FirstFaultSoFar.{found};
ghost use Rattle.aadl_names.specs.proof.NameTables.{value_of};
ghost use Rattle.aadl_names.specs.proof.EarliestDeclarations.{again_by};
ghost use Rattle.aadl_names.specs.DuplicateNames.{again, twice};

use crate::declared_name::SpelledName;
use crate::earliest_by_name::{earliest_of, is_before};
use crate::fault_finder::FaultFinder;
use crate::name_table::NameTable;
use crate::numbered_place::NumberedPlace;
use std::alloc::AllocError;

// Up to so many declarations are compared, each with each; of more, a table is made.
const FEW: usize = 8;

/// Finds the declarations that have the name of an earlier one.
pub fn check_twice(finder: &mut FaultFinder, entries: &[SpelledName]) -> Result<(), AllocError>
    ensures { OnOk result (finder.new ≡ found finder.old (twice entries.now)) }
{
    if entries.len() <= FEW {
        compare_all(finder, entries)
    } else {
        look_up_all(finder, entries)
    }
}

// Finds them by comparing each with each.
fn compare_all(finder: &mut FaultFinder, entries: &[SpelledName]) -> Result<(), AllocError>
    ensures { OnOk result (finder.new ≡ found finder.old (twice entries.now)) }
{
    for entry in entries {
        compare_entry(finder, entries, entry)?;
    }
    Ok(())
}

// Finds that an entry has the name of an earlier one.
fn compare_entry(
    finder: &mut FaultFinder,
    entries: &[SpelledName],
    entry: &SpelledName,
) -> Result<(), AllocError>
    ensures { OnOk result (finder.new ≡ found finder.old (again entries.now entry.now)) }
{
    if is_declared_before(entries, entry) {
        finder.twice(entry.name.as_str(), entry.at)?;
    }
    Ok(())
}

// Whether one of some entries has the name of this one, and precedes it.
fn is_declared_before(entries: &[SpelledName], entry: &SpelledName) -> bool
    ensures { result ≡ list_any (λ y. same_name entry.now.name y.name && nat_lt y.at entry.now.at) entries.now }
{
    entries.iter().any(|other| is_again(entry, other))
}

// Whether an entry has the name of an earlier one.
fn is_again(entry: &SpelledName, other: &SpelledName) -> bool
    ensures { result ≡ (same_name entry.now.name other.now.name && nat_lt other.now.at entry.now.at) }
{
    other.at < entry.at
        && entry
            .name
            .as_str()
            .eq_ignore_ascii_case(other.name.as_str())
}

// Finds them by a table of the earliest of each name.
fn look_up_all(finder: &mut FaultFinder, entries: &[SpelledName]) -> Result<(), AllocError>
    ensures { OnOk result (finder.new ≡ found finder.old (twice entries.now)) }
{
    let table = earliest_of(finder.alloc(), entries)?;
    for entry in entries {
        check_entry(finder, &table, entry)?;
    }
    Ok(())
}

// Finds that an entry follows the earliest one of its name.
fn check_entry(
    finder: &mut FaultFinder,
    table: &NameTable<NumberedPlace>,
    entry: &SpelledName,
) -> Result<(), AllocError>
    ensures { OnOk result (finder.new ≡ found finder.old (again_by (value_of table.now entry.now.name) entry.now)) }
{
    let earliest = table.value(finder.alloc(), entry.name.as_str())?;
    if is_before(earliest, entry.at) {
        finder.twice(entry.name.as_str(), entry.at)?;
    }
    Ok(())
}
