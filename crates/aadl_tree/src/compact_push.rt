//! Appends to a list whose capacity starts at one item and doubles when the list is full.
ghost use Rattle.std.specs.Prelude.{◌≡◌, [], ◌∷◌, ◌++◌, OnOk};

use std::alloc::AllocError;

/// Appends an item. A full list doubles its capacity; an empty one gets room for one item. Errors: out of
/// memory.
pub fn push_compact<T: Drop>(list: &mut Vec<T>, item: T) -> Result<(), AllocError>
    ensures { OnOk result (list.new.items ≡ list.old.items ++ item ∷ []) }
{
    if list.len() == list.capacity() {
        list.reserve_exact(list.len().max(1))?;
    }
    list.push(item)?;
    Ok(())
}
