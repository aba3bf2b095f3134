//! The arguments of a program, and what is made of arguments that were not read.
use pals_base::Text;
use program_edge::command_words;
use std::alloc::{AllocError, Global};
use std::io;
use std::io::ErrorKind;

fn words_after(alloc: Global, arguments: &[&str]) -> Result<Vec<Text>, AllocError> {
    let mut strings = Vec::new(alloc);
    for argument in arguments {
        strings.push(String::from_str(alloc, argument)?)?;
    }
    command_words(alloc, Ok(strings.into_iter()))
}

/// Whether the first argument, the program's name, is dropped and all others are words.
pub fn drop_the_name(alloc: Global) -> Result<bool, AllocError> {
    let words = words_after(alloc, &["pals", "check", "Top.impl"])?;
    let is_each_word = match words.as_slice() {
        [command, root] => command.as_str() == "check" && root.as_str() == "Top.impl",
        _ => false,
    };
    let is_none = words_after(alloc, &["pals"])?.is_empty() && words_after(alloc, &[])?.is_empty();
    Ok(is_each_word && is_none)
}

/// Whether arguments that are not UTF-8 are no words, and another error is one.
pub fn are_not_read(alloc: Global) -> bool {
    let not_text = command_words(alloc, Err(io::Error::from(ErrorKind::InvalidData)));
    let no_memory = command_words(alloc, Err(io::Error::from(ErrorKind::OutOfMemory)));
    match not_text {
        Ok(words) => words.is_empty() && no_memory.is_err(),
        Err(_) => false,
    }
}
