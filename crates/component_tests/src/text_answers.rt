//! The program's answers on texts: tokens, whether there is a tree, the canonical text, and whether two texts have
//! one tree.
use crate::behaviour_answers::behaviour;
use crate::fault_lines::{lex_fault, messages, text_fault};
use aadl_lex::{Token, lex};
use aadl_parse::{TextFault, parse};
use aadl_print::{is_read_back, print};
use aadl_tree::{PackageTree, same};
use case_files::{Answers, asked, text_of};
use std::alloc::{AllocError, Global};
use std::io;

// The classes of the tokens with their bytes.
fn spelled(alloc: Global, text: &[u8], tokens: &[Token]) -> Result<Vec<u8>, AllocError> {
    let mut all = String::new(alloc);
    for token in tokens {
        let kind = token.kind;
        let bytes = text.get(token.start..token.end).unwrap_or(b"?");
        let bytes = std::str::from_utf8(bytes).unwrap_or("?");
        write!(all, "{kind:?}<{bytes}>")?;
    }
    all.push_str("\n")?;
    Ok(all.into_bytes())
}

// The tokens of a text, or its first lexical fault.
fn tokens(alloc: Global, text: &[u8]) -> Result<Vec<u8>, AllocError> {
    match lex(alloc, text) {
        Ok(tokens) => spelled(alloc, text, tokens.as_slice()),
        Err(fault) => lex_fault(alloc, text, fault),
    }
}

// Whether a text has a tree, or its fault.
fn read(alloc: Global, text: &[u8]) -> Result<Vec<u8>, AllocError> {
    match parse(alloc, text) {
        Ok(_tree) => b"tree\n".to_vec(alloc),
        Err(fault) => text_fault(alloc, text, fault),
    }
}

// The canonical text of a tree, where it is read back as that tree.
fn canonical(alloc: Global, tree: &PackageTree) -> Result<Vec<u8>, AllocError> {
    if is_read_back(alloc, tree)? {
        print(alloc, tree)
    } else {
        Ok(Vec::new(alloc))
    }
}

// The canonical text of a text, or its fault.
fn printed(alloc: Global, text: &[u8]) -> Result<Vec<u8>, AllocError> {
    match parse(alloc, text) {
        Ok(tree) => canonical(alloc, &tree),
        Err(fault) => text_fault(alloc, text, fault),
    }
}

fn have_same_tree(alloc: Global, left: &str, right: &str) -> Result<bool, TextFault> {
    let left = parse(alloc, left.as_bytes())?;
    let right = parse(alloc, right.as_bytes())?;
    Ok(same(&left, &right))
}

// Whether two texts, with a line `%%%` between them, have the same tree.
fn compared(alloc: Global, text: &[u8]) -> Result<Vec<u8>, AllocError> {
    let texts = std::str::from_utf8(text).unwrap_or("");
    let (left, right) = texts.split_once("%%%\n").unwrap_or((texts, ""));
    let found = match have_same_tree(alloc, left, right) {
        Ok(true) => "same\n",
        Ok(false) => "other\n",
        Err(_fault) => "no tree\n",
    };
    found.as_bytes().to_vec(alloc)
}

// What a case asks of a text.
fn answer_of(alloc: Global, asked: &str, text: &[u8]) -> Result<Vec<u8>, AllocError> {
    match asked {
        "tokens" => tokens(alloc, text),
        "tree" => read(alloc, text),
        "print" => printed(alloc, text),
        "same" => compared(alloc, text),
        "behaviour" => behaviour(alloc, text),
        _ => messages(alloc),
    }
}

/// The answers on texts.
pub struct Texts;

impl Answers for Texts {
    fn answer(&self, rt: &HostRuntime, case: &str) -> io::Result<Vec<u8>> {
        let text = text_of(rt, case)?;
        Ok(answer_of(rt.alloc(), asked(case), text.as_slice())?)
    }
}
