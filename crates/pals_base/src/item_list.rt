//! Lists whose model is the list of their items, without addresses.
ghost use Rattle.std.specs.Prelude.{◌≡◌, ◌<◌, [], ◌∷◌, ◌++◌, length, IfOk, OnOk, OnErr, slice_get, slice_set};
ghost use Rattle.std.specs.Prelude.{slice_index_or, option_copied, ◌==◌};
ghost use Rattle.std.specs.Slice.Iter.{iter_rest};
ghost use Rattle.std.specs.Iterator.Adapters.{IterYieldsInOrder};
ghost use Rattle.std.specs.Borrow.{sem, Lends};
ghost use Rattle.pals_base.specs.contracts.item_list.ItemList.{the_row};

use std::alloc::{AllocError, Global};
use std::marker::Model;
use std::ops::{Index, IndexMut};
use std::slice::Iter;

/// A list of items. Its model is the list of the items' models, so two lists are equal if and only if they have
/// equal items, wherever these are stored.
#[derive(Drop)]
pub struct ItemList<T> {
    items: Vec<T>,
}

impl<T> Model for ItemList<T> {
    ghost use Rattle.std.specs.Prelude.{List};

    ghost Value = { List T };

    ghost view = { λ list. list.items.items };
}

impl<T> ItemList<T> {
    /// Returns an empty list. Does not allocate.
    pub fn new(alloc: Global) -> ItemList<T>
        ensures { result ≡ [] }
    {
        ItemList {
            items: Vec::new(alloc),
        }
    }

    /// Converts a vector into a list.
    pub fn from_vec(items: Vec<T>) -> ItemList<T>
        ensures { result ≡ items.items }
    {
        ItemList { items }
    }

    /// Converts the list into a vector.
    pub fn into_vec(self) -> Vec<T>
        ensures { result.items ≡ self }
    {
        self.items
    }

    /// Returns the number of items.
    pub fn len(&self) -> usize
        ensures { result ≡ length self.now }
    {
        self.items.len()
    }

    /// Returns whether the list is empty.
    pub fn is_empty(&self) -> bool
        ensures { result ≡ (length self.now == 0) }
    {
        self.items.is_empty()
    }

    /// Returns the items as a slice.
    pub fn as_slice(&self) -> &[T]
        ensures value { result.now ≡ self.now }
        ensures len { length result.now ≡ length self.now }
    {
        self.items.as_slice()
    }

    /// Iterates over the items in order.
    pub fn iter(&self) -> Iter<'_, T>
        ensures rest { iter_rest result ≡ self.now }
        ensures runs { IterYieldsInOrder T }
    {
        self.items.as_slice().iter()
    }

    /// Returns the item at an index, or `None` past the end.
    pub fn get(&self, at: usize) -> Option<&T>
        ensures { option_copied result ≡ slice_get self.now at }
    {
        self.items.get(at)
    }
}

impl<T: Drop> ItemList<T> {
    /// Appends an item. Errors: out of memory; the list is unchanged then.
    pub fn push(&mut self, item: T) -> Result<(), AllocError>
        ensures ok { OnOk result (self.new ≡ self.old ++ item ∷ []) }
        ensures err { OnErr result (self.new ≡ self.old) }
    {
        self.items.push(item)?;
        Ok(())
    }

    /// Replaces the item at an index.
    pub fn set(&mut self, at: usize, item: T)
        requires { at < length self.old }
        ensures { self.new ≡ slice_set self.old at item }
    {
        self.items[at] = item;
    }
}

impl<T: Copy> ItemList<T> {
    /// Copies a slice into a new list. Errors: out of memory.
    pub fn from_slice(alloc: Global, items: &[T]) -> Result<ItemList<T>, AllocError>
        ensures { IfOk result (λ list. list ≡ items.now) }
    {
        Ok(ItemList {
            items: Vec::from_slice(alloc, items)?,
        })
    }

    /// Overwrites all items with the items of a slice of the same length. Does not allocate.
    pub fn copy_from_slice(&mut self, items: &[T])
        requires { length self.old ≡ length items.now }
        ensures { self.new ≡ items.now }
    {
        self.items.as_mut_slice().copy_from_slice(items);
    }
}

impl<T> Index<usize> for ItemList<T> {
    type Output = T;

    ghost can_index = { λ list at. at < length list };

    ghost index_gives = { λ list at item. item ≡ slice_index_or list at item };

    fn index(&self, at: usize) -> &T
        requires { at < length self.now }
        ensures { result.now ≡ slice_index_or self.now at result.now }
    {
        &self.items[at]
    }
}

impl<T> IndexMut<usize> for ItemList<T> {
    fn index_mut(&mut self, at: usize) -> &mut T
        requires { at < length self.old }
        ensures* writes_back { sem 𝓛 (Lends (the_row T.row) T.row self.entry result
            (λ item. slice_set self.entry.now at item)) }
        ensures value { result.now ≡ slice_index_or self.old at result.now }
    {
        &mut self.items[at]
    }
}
