//! Tables of the names of a behaviour's variables and states.
ghost use Rattle.std.specs.Prelude.{◌≡◌, ℕ, List, OnOk, IfOk};
ghost use Rattle.aadl_tree.specs.Names.{same_name, identifiers};
ghost use Rattle.std.specs.Option.{option_or};
ghost use Rattle.aadl_tree.specs.proof.NameViews.{identifier_view, identifiers_view};
ghost use Rattle.aadl_tree.specs.proof.AnnexViews.{annex_tree_view};
ghost use Rattle.aadl_tree.specs.proof.PlaceMaps.{kept_place};
ghost use Rattle.aadl_names.specs.proof.NameTables.{value_of};
ghost use Rattle.aadl_names.specs.BehaviourAnnexes.{variables_of, states_of};
ghost use Rattle.aadl_names.specs.PackageNameFaults.{is_among, variable_roles};
ghost use Rattle.name_faults.specs.proof.ConditionalValues.{value_if, is_marked};

use crate::behaviour_sections::{states_in, variables_in};
use aadl_names::{NameTable, Role};
use aadl_tree::{AnnexTree, Identifier, Identifiers};
use std::alloc::{AllocError, Global};

/// Returns the role of each name of a variable. Errors: out of memory.
pub fn variable_roles(alloc: Global, behaviour: &AnnexTree) -> Result<NameTable<Role>, AllocError>
    ensures { IfOk result (λ table. (name : List ℕ) → value_of table name
        ≡ variable_roles (variables_of (annex_tree_view kept_place behaviour.now)) name) }
{
    let mut table = NameTable::new(alloc);
    for declaration in variables_in(behaviour) {
        add_words(alloc, &mut table, &declaration.names, Role::Varies)?;
    }
    Ok(table)
}

/// Returns the names of the states. Errors: out of memory.
pub fn state_names(alloc: Global, behaviour: &AnnexTree) -> Result<NameTable<()>, AllocError>
    ensures { IfOk result (λ table. (name : List ℕ) → is_marked (value_of table name)
        ≡ is_among (states_of (annex_tree_view kept_place behaviour.now)) name) }
{
    let mut table = NameTable::new(alloc);
    for declaration in states_in(behaviour) {
        add_words(alloc, &mut table, &declaration.names, ())?;
    }
    Ok(table)
}

// Adds names with the same value, unless the table has them.
fn add_words<V: Copy>(
    alloc: Global,
    table: &mut NameTable<V>,
    words: &Identifiers,
    value: V,
) -> Result<(), AllocError>
    ensures { OnOk result ((name : List ℕ)
        → value_of table.new name ≡ option_or (value_of table.old name)
        (value_if value (is_among (identifiers (identifiers_view kept_place words.now)) name))) }
{
    add_word(alloc, table, &words.first, value)?;
    for word in &words.rest {
        add_word(alloc, table, word, value)?;
    }
    Ok(())
}

fn add_word<V: Copy>(
    alloc: Global,
    table: &mut NameTable<V>,
    word: &Identifier,
    value: V,
) -> Result<(), AllocError>
    ensures { OnOk result ((name : List ℕ)
        → value_of table.new name ≡ option_or (value_of table.old name)
        (value_if value (same_name name (identifier_view kept_place word.now).spelling))) }
{
    table.add(alloc, word.spelling.as_str(), value)
}
