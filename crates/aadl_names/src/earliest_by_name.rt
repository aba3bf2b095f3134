//! The earliest of the declarations of each name.
ghost use Rattle.std.specs.Prelude.{◌≡◌, ℕ, List, Some, None, OnOk, IfOk, if◌then◌else◌};
ghost use Rattle.aadl_tree.specs.Names.{same_name};
ghost use Rattle.aadl_names.specs.proof.NameTables.{value_of};
ghost use Rattle.aadl_names.specs.proof.EarliestDeclarations as spec;

use crate::declared_name::SpelledName;
use crate::name_table::NameTable;
use crate::numbered_place::NumberedPlace;
use std::alloc::{AllocError, Global};

/// The earliest of the declarations of each name.
pub fn earliest_of(
    alloc: Global,
    entries: &[SpelledName],
) -> Result<NameTable<NumberedPlace>, AllocError>
    ensures { IfOk result (λ table. (name : List ℕ) → value_of table name ≡ spec.earliest name 0 entries.now) }
{
    let mut table = NameTable::new(alloc);
    for (number, entry) in entries.iter().enumerate() {
        let spot = NumberedPlace {
            number,
            at: entry.at,
        };
        add_spot(alloc, &mut table, entry.name.as_str(), spot)?;
    }
    Ok(table)
}

// Adds a declaration of a name, unless a declaration of the name precedes it.
fn add_spot(
    alloc: Global,
    table: &mut NameTable<NumberedPlace>,
    name: &str,
    spot: NumberedPlace,
) -> Result<(), AllocError>
    ensures { OnOk result ((other : List ℕ)
        → value_of table.new other ≡ spec.sooner (value_of table.old other)
        (if same_name other name.now then Some spot else None)) }
{
    let earliest = table.value(alloc, name)?;
    if is_sooner(spot, earliest) {
        table.set(alloc, name, spot)
    } else {
        Ok(())
    }
}

// Whether a declaration precedes another one, if there is one.
fn is_sooner(spot: NumberedPlace, other: Option<NumberedPlace>) -> bool
    ensures { result ≡ spec.is_sooner spot other }
{
    match other {
        Some(other) => spot.at < other.at,
        None => true,
    }
}

/// Whether there is a declaration, and it precedes a place.
pub fn is_before(spot: Option<NumberedPlace>, at: usize) -> bool
    ensures { result ≡ spec.is_before spot at }
{
    match spot {
        Some(spot) => spot.at < at,
        None => false,
    }
}
