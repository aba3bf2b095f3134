//! A name as its declaration spells it, with the declaration's place.
ghost use Rattle.std.specs.Prelude.{◌≡◌, IfOk};
ghost use Rattle.aadl_tree.specs.proof.PlaceMaps.{kept_place};
ghost use Rattle.aadl_tree.specs.proof.NameViews.{identifier_view};
ghost use Rattle.aadl_names.specs.DuplicateNames as spec;

use aadl_tree::{Identifier, Spelling};
use std::alloc::{AllocError, Global};

/// A name as its declaration spells it, and the declaration's place.
#[derive(Drop)]
pub struct SpelledName {
    pub name: Spelling,
    pub at: usize,
}

/// What a word declares.
pub fn entry_of(alloc: Global, word: &Identifier) -> Result<SpelledName, AllocError>
    ensures { IfOk result (λ entry. entry ≡ spec.entry_of (identifier_view kept_place word.now)) }
{
    Ok(SpelledName {
        name: Spelling::from_str(alloc, word.spelling.as_str())?,
        at: word.at,
    })
}
