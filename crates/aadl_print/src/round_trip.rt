//! The round trip of a tree: the printed text of a tree parses to the same tree.
ghost use Rattle.std.specs.Prelude.{IsTrue, IfOk};

use crate::print;
use aadl_parse::{TextFault, parse};
use aadl_tree::{PackageTree, same};
use std::alloc::{AllocError, Global};

/// Returns whether the text that [`print`] returns for a tree parses, by [`parse`], to the same tree. The
/// result is always true. Errors: out of memory.
pub fn is_read_back(alloc: Global, tree: &PackageTree) -> Result<bool, AllocError>
    ensures { IfOk result IsTrue }
{
    let text = print(alloc, tree)?;
    match parse(alloc, text.as_slice()) {
        Ok(again) => Ok(same(&again, tree)),
        Err(TextFault::Memory) => Err(AllocError),
        Err(_fault) => Ok(false),
    }
}
