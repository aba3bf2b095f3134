//! A table of names, searched without regard to case.
ghost use Rattle.std.specs.Prelude.{◌≡◌};

use crate::folded_name::FoldedName;
use std::alloc::{AllocError, Global};
use std::collections::BTreeMap;
use std::marker::Model;

/// A map from names to values. Its model is the list of names in lower case with their values. The
/// table compares names by order and does not hash them: the kit's hasher has a fixed seed, so a text
/// could choose names that collide.
pub struct NameTable<V: Copy> {
    values: BTreeMap<FoldedName, V>,
}

impl<V: Copy> Drop for NameTable<V> {
    fn drop(self) {
        let NameTable { values: _ } = self;
    }
}

impl<V: Copy> Model for NameTable<V> {
    ghost use Rattle.std.specs.Prelude.{ℕ, List};

    ghost Value = { List (List ℕ × V) };

    ghost view = { λ t. t.values.entries };
}

impl<V: Copy> NameTable<V> {
    ghost use Rattle.std.specs.Prelude.{◌≡◌, ◌++◌, ℕ, List, None, Some, OnOk, IfOk, codes, if◌then◌else◌};
    ghost use Rattle.std.specs.Option.{option_or};
    ghost use Rattle.aadl_tree.specs.Names.{same_name};
    ghost use Rattle.aadl_names.specs.proof.NameTables.{value_of};

    /// Returns an empty table. Does not allocate.
    pub fn new(alloc: Global) -> NameTable<V>
        ensures { (name : List ℕ) → value_of result name ≡ None }
    {
        NameTable {
            values: BTreeMap::new(alloc),
        }
    }

    /// Adds a name with its value, unless the table has the name.
    pub fn add(&mut self, alloc: Global, name: &str, value: V) -> Result<(), AllocError>
        ensures { OnOk result ((other : List ℕ)
            → value_of self.new other ≡ option_or (value_of self.old other)
            (if same_name other name.now then Some value else None)) }
    {
        let key = FoldedName::of(alloc, name)?;
        if self.values.get(&key).is_none() {
            self.values.insert(key, value)?;
        }
        Ok(())
    }

    /// Sets the value of a name, which the table may have or not.
    pub fn set(&mut self, alloc: Global, name: &str, value: V) -> Result<(), AllocError>
        ensures { OnOk result ((other : List ℕ)
            → value_of self.new other ≡ (if same_name other name.now then Some value else value_of self.old other)) }
    {
        let key = FoldedName::of(alloc, name)?;
        self.values.insert(key, value)?;
        Ok(())
    }

    /// Returns the value of a name.
    pub fn value(&self, alloc: Global, name: &str) -> Result<Option<V>, AllocError>
        ensures { IfOk result (λ value. value ≡ value_of self.now name.now) }
    {
        let key = FoldedName::of(alloc, name)?;
        Ok(self.values.get(&key).copied())
    }

    /// Returns the value of two names joined by a point.
    pub fn dotted_value(
        &self,
        alloc: Global,
        first: &str,
        second: &str,
    ) -> Result<Option<V>, AllocError>
        ensures { IfOk result (λ value. value ≡ value_of self.now (first.now ++ codes "." ++ second.now)) }
    {
        let key = FoldedName::of_dotted(alloc, first, second)?;
        Ok(self.values.get(&key).copied())
    }
}
