//! The arguments of a program.
ghost use Rattle.std.specs.Prelude.{◌≡◌, drop, map, string_bytes, IfOk};
ghost use Rattle.std.specs.Vec.Iter.{into_iter_items};
ghost use Rattle.program_edge.specs.Arguments.{words_of};

use pals_base::{NoMemory, Text};
use std::alloc::{AllocError, Global};
use std::env::Args;
use std::io;
use std::io::ErrorKind;

/// Returns the arguments after the program's name. If one is not UTF-8, the list is empty, which no program
/// accepts.
///
/// # Errors
///
/// Out of memory.
pub fn command_words(alloc: Global, arguments: io::Result<Args>) -> Result<Vec<Text>, NoMemory>
    ensures { IfOk result (λ words. words.items ≡ words_of arguments) }
{
    match arguments {
        Ok(arguments) => words_after_name(alloc, arguments),
        Err(error) if error.kind() == ErrorKind::InvalidData => Ok(Vec::new(alloc)),
        Err(_) => Err(AllocError),
    }
}

// The arguments without the first one, which is the program's name.
fn words_after_name(alloc: Global, mut arguments: Args) -> Result<Vec<Text>, NoMemory>
    ensures { IfOk result (λ words. words.items ≡ map string_bytes (drop 1 (into_iter_items arguments))) }
{
    let mut words = Vec::new(alloc);
    let _name = arguments.next();
    for word in arguments {
        words.push(Text::new(word))?;
    }
    Ok(words)
}
