//! Names: words, and paths of words.
ghost use Rattle.std.specs.Prelude.{◌≡◌, ◌≢◌, ◌++◌, ◌↔◌, IsTrue, All, AllPairs, OnOk, map};
ghost use Rattle.std.specs.List.{list_all};
ghost use Rattle.pals_base.specs.Names.{is_letter, is_word_byte, is_led_by_letter, is_word};

use crate::basic_types::NoMemory;
use crate::behaviour::{PortDecl, StateDecl, VarDecl};
use crate::item_list::ItemList;
use crate::limits::NAME_BYTES;
use crate::text::Text;
use crate::try_clone::TryClone;
use std::alloc::Global;

/// An item with a name.
pub trait HasName {
    ghost use Rattle.std.specs.Prelude.{ℕ, List};

    // The bytes of the name.
    ghost name_of: { Self → List ℕ };

    /// Returns the name.
    fn name(&self) -> &Text
        ensures { result.now ≡ name_of self.now };
}

impl HasName for Text {
    ghost name_of = { λ text. text };

    fn name(&self) -> &Text {
        self
    }
}

// A letter of ASCII.
fn is_letter(byte: u8) -> bool
    ensures { result ≡ is_letter byte }
{
    (b'A' <= byte && byte <= b'Z') || (b'a' <= byte && byte <= b'z')
}

// A letter, a digit or `_`.
fn is_word_byte(byte: u8) -> bool
    ensures { result ≡ is_word_byte byte }
{
    is_letter(byte) || (b'0' <= byte && byte <= b'9') || byte == b'_'
}

// Whether the first byte is a letter.
fn is_led_by_letter(name: &[u8]) -> bool
    ensures { result ≡ is_led_by_letter name.now }
{
    match name {
        [] => false,
        [first, ..] => is_letter(*first),
    }
}

// Whether each byte can occur in a word.
fn has_word_bytes(name: &[u8]) -> bool
    ensures { result ≡ list_all is_word_byte name.now }
{
    name.iter().all(|byte| is_word_byte(*byte))
}

/// Returns whether a name is a word: a letter followed by letters, digits and `_`, at most 64 bytes in total.
pub fn is_word(name: &[u8]) -> bool
    ensures { result ≡ is_word name.now }
{
    name.len() <= NAME_BYTES && is_led_by_letter(name) && has_word_bytes(name)
}

/// Returns whether the name of each item is a word.
pub fn are_words<T: HasName>(items: &[T]) -> bool
    ensures { result ≡ list_all (λ item. is_word (T.name_of item)) items.now }
{
    items.iter().all(|item| is_word(item.name().as_bytes()))
}

// Whether no item has this name.
fn is_new<T: HasName>(name: &Text, others: &[T]) -> bool
    ensures { IsTrue result ↔ All (λ other. name.now ≢ T.name_of other) others.now }
{
    others
        .iter()
        .all(|other| name.as_bytes() != other.name().as_bytes())
}

/// Returns whether the names are pairwise distinct. Compares each pair, which takes quadratic time.
pub fn are_distinct<T: HasName>(items: &[T]) -> bool
    ensures { IsTrue result ↔ AllPairs (λ a b. T.name_of a ≢ T.name_of b) items.now }
{
    for (at, item) in items.iter().enumerate() {
        if !is_new(item.name(), &items[at + 1..]) {
            return false;
        }
    }
    true
}

/// Appends the names of these items to a list. Errors: out of memory.
pub fn add_names<T: HasName>(
    alloc: Global,
    names: &mut ItemList<Text>,
    items: &[T],
) -> Result<(), NoMemory>
    ensures { OnOk result (names.new ≡ names.old ++ map T.name_of items.now) }
{
    for item in items {
        names.push(item.name().try_clone(alloc)?)?;
    }
    Ok(())
}

impl HasName for PortDecl {
    ghost name_of = { λ port. port.name };

    fn name(&self) -> &Text {
        &self.name
    }
}

impl HasName for VarDecl {
    ghost name_of = { λ variable. variable.name };

    fn name(&self) -> &Text {
        &self.name
    }
}

impl HasName for StateDecl {
    ghost name_of = { λ state. state.name };

    fn name(&self) -> &Text {
        &self.name
    }
}
