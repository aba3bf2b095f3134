//! The program's answers on packages: the first wrong name, the declarations in use, the declaration that contains
//! itself, and whether there are too many threads.
use crate::{cycles_and_uses, first_name_faults, thread_limit};
use aadl_parse::parse;
use aadl_tree::PackageTree;
use case_files::{Answers, asked, text_of};
use std::alloc::{AllocError, Global};
use std::io;

// The answer to a question about a package.
fn told(alloc: Global, asked: &str, text: &str, tree: &PackageTree) -> Result<String, AllocError> {
    match asked {
        "names" => first_name_faults::first_fault(alloc, text, tree),
        "cycles" => cycles_and_uses::first_cycle(alloc, text, tree),
        "in use" => cycles_and_uses::in_use(alloc, tree),
        _ => thread_limit::counted(alloc, tree),
    }
}

// The answer about the package of a text, or that the text has no tree.
fn found(alloc: Global, asked: &str, text: &str) -> Result<String, AllocError> {
    match parse(alloc, text.as_bytes()) {
        Ok(tree) => told(alloc, asked, text, &tree),
        Err(_fault) => String::from_str(alloc, "no tree\n"),
    }
}

/// The answers of packages.
pub struct Packages;

impl Answers for Packages {
    fn answer(&self, rt: &HostRuntime, case: &str) -> io::Result<Vec<u8>> {
        let text = text_of(rt, case)?;
        let text = std::str::from_utf8(text.as_slice()).unwrap_or("");
        Ok(found(rt.alloc(), asked(case), text)?.into_bytes())
    }
}
