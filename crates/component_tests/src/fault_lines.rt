//! Faults and their places.
use aadl_lex::LexFault;
use aadl_parse::TextFault;
use std::alloc::{AllocError, Global};

// The line and the column of a byte, both from 1.
fn place(text: &[u8], at: usize) -> (usize, usize) {
    let mut line = 1usize;
    let mut column = 1usize;
    for byte in text.iter().take(at) {
        if *byte == b'\n' {
            line = line.wrapping_add(1);
            column = 1;
        } else {
            column = column.wrapping_add(1);
        }
    }
    (line, column)
}

fn at(fault: LexFault) -> usize {
    match fault {
        LexFault::NotUtf8 { at } => at,
        LexFault::BadByte { at } => at,
        LexFault::OpenString { at } => at,
        LexFault::OpenAnnex { at } => at,
        LexFault::BigNumber { at } => at,
        LexFault::LongName { at } => at,
        LexFault::Memory => 0,
    }
}

fn at_in_text(fault: TextFault) -> usize {
    match fault {
        TextFault::Lex(fault) => at(fault),
        TextFault::Syntax { at } => at,
        TextFault::TooDeep { at } => at,
        TextFault::Memory => 0,
    }
}

/// The name of a text's first lexical fault, and its place.
pub fn lex_fault(alloc: Global, text: &[u8], fault: LexFault) -> Result<Vec<u8>, AllocError> {
    let (line, column) = place(text, at(fault));
    Ok(format!(in alloc; "{fault} {line}:{column}\n")?.into_bytes())
}

/// The name of a text's fault, and its place.
pub fn text_fault(alloc: Global, text: &[u8], fault: TextFault) -> Result<Vec<u8>, AllocError> {
    let (line, column) = place(text, at_in_text(fault));
    Ok(format!(in alloc; "{fault} {line}:{column}\n")?.into_bytes())
}

/// What the faults are called that no text has.
pub fn messages(alloc: Global) -> Result<Vec<u8>, AllocError> {
    let lexing = LexFault::Memory;
    let reading = TextFault::Memory;
    Ok(format!(in alloc; "{lexing}\n{reading}\n")?.into_bytes())
}
