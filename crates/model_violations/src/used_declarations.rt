//! The declarations in use below the root.
ghost use Rattle.std.specs.Prelude.{◌≡◌, ◌<◌, ◌&&◌, ◌||◌, ℕ, IfOk, OnOk, length};
ghost use Rattle.aadl_tree.specs.proof.PackageViews.{placed};
ghost use Rattle.aadl_uses.specs.proof.ImplementationTypes.{type_number_at};
ghost use Rattle.model_violations.specs.IgnoredProperties.{is_number};
ghost use Rattle.model_violations.specs.UsedDeclarations.{has, IsUse, type_used};

use aadl_uses::Uses;
use indexmap::IndexSet;
use pals_base::NoMemory;
use std::alloc::Global;

fn add_number(numbers: &mut IndexSet<usize>, number: Option<usize>) -> Result<(), NoMemory>
    ensures { OnOk result ((n : ℕ) → has numbers.new.keys n ≡ (has numbers.old.keys n || is_number n number)) }
{
    match number {
        Some(number) => {
            numbers.insert(number)?;
            Ok(())
        }
        None => Ok(()),
    }
}

/// Returns the numbers of the implementations that the root contains, including its own. Errors: out of memory.
pub fn used_below(alloc: Global, uses: &Uses<'_>, root: usize) -> Result<IndexSet<usize>, NoMemory>
    requires { root < length (placed uses.now.names.tree.now).declarations }
    ensures { IfOk result (λ used. IsUse (placed uses.now.names.tree.now) root (has used.keys)) }
{
    let used = uses.in_use(alloc, root)?;
    Ok(used)
}

// Adds the number of the type of the declaration with a number, if the declaration is an implementation in use.
fn add_type_of(
    uses: &Uses<'_>,
    used: &IndexSet<usize>,
    number: usize,
    types: &mut IndexSet<usize>,
) -> Result<(), NoMemory>
    ensures { OnOk result ((n : ℕ) → has types.new.keys n ≡ (has types.old.keys n
        || (has used.now.keys number && is_number n (type_number_at (placed uses.now.names.tree.now) number)))) }
{
    if used.contains(&number) {
        add_number(types, uses.type_number(number))?;
        Ok(())
    } else {
        Ok(())
    }
}

/// Returns the numbers of the types with an implementation in use. Errors: out of memory.
pub fn types_used(
    alloc: Global,
    uses: &Uses<'_>,
    used: &IndexSet<usize>,
) -> Result<IndexSet<usize>, NoMemory>
    ensures { IfOk result (λ types. (n : ℕ) → has types.keys n
        ≡ type_used (placed uses.now.names.tree.now) (has used.now.keys) n) }
{
    let mut types = IndexSet::new(alloc);
    for number in 0..uses.len() {
        add_type_of(uses, used, number, &mut types)?;
    }
    Ok(types)
}
