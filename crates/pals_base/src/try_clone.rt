//! Copies of values.
ghost use Rattle.std.specs.Prelude.{◌≡◌, IfOk};

mod value_and_frame_copies;

use crate::basic_types::NoMemory;
use crate::item_list::ItemList;
use std::alloc::Global;

/// A type whose values can be cloned if memory suffices.
pub trait TryClone {
    /// Returns a value with the same contents. Immutable contents may be shared. Errors: out of memory.
    fn try_clone(&self, alloc: Global) -> Result<Self, NoMemory>
        ensures { IfOk result (λ copy. copy ≡ self.now) };
}

impl<T: TryClone + Drop> TryClone for ItemList<T> {
    fn try_clone(&self, alloc: Global) -> Result<ItemList<T>, NoMemory> {
        let mut copies = ItemList::new(alloc);
        for item in self.as_slice() {
            copies.push(item.try_clone(alloc)?)?;
        }
        Ok(copies)
    }
}
