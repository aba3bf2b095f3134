//! Distinct names in their first spelling.
ghost use Rattle.std.specs.Prelude.{◌≡◌, [], IfOk, OnOk};
ghost use Rattle.model_violations.specs.IgnoredProperties as spec;
ghost use Rattle.model_violations.specs.proof.SpellingTables as inner;

use aadl_names::name_table::NameTable;
use pals_base::{ItemList, NoMemory, Text, TryClone};
use std::alloc::Global;

// Adds a name to the names and to the table of their numbers, unless it is there.
fn add_first(
    alloc: Global,
    name: &Text,
    numbers: &mut NameTable<usize>,
    first: &mut ItemList<Text>,
) -> Result<(), NoMemory>
    requires { inner.KnowsAll numbers.old first.old }
    ensures first { OnOk result (first.new ≡ spec.behind first.old name.now) }
    ensures known { OnOk result (inner.KnowsAll numbers.new first.new) }
{
    let text = name.as_str();
    let known = numbers.value(alloc, text)?;
    match known {
        Some(_) => Ok(()),
        None => {
            numbers.add(alloc, text, first.len())?;
            first.push(name.try_clone(alloc)?)?;
            Ok(())
        }
    }
}

/// Returns each name once, in its first spelling, in the order of first occurrence. Ignores case in
/// comparisons. Errors: out of memory.
pub fn first_spellings(alloc: Global, names: &[Text]) -> Result<ItemList<Text>, NoMemory>
    ensures { IfOk result (λ first. first ≡ spec.all_behind [] names.now) }
{
    let mut first = ItemList::new(alloc);
    let mut numbers = NameTable::new(alloc);
    for name in names {
        add_first(alloc, name, &mut numbers, &mut first)?;
    }
    Ok(first)
}
