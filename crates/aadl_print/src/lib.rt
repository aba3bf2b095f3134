//! The printer: the canonical text of a tree. It consists of the tree's terminals in the order of the grammar,
//! each in its canonical spelling, with a space, a line end or nothing between two of them. It has no comments
//! and no constructs without meaning.
//!
//! [`print`] is proved to return the canonical text of the definition, and [`is_read_back`] proves that this
//! text parses to the same tree. The crate does not preserve comments or layout.
#![tactic(auto)]

ghost use Rattle.std.specs.Prelude.{◌≡◌, IfOk, OnOk};
ghost use Rattle.aadl_tree.specs.CanonicalText.{canon};
ghost use Rattle.aadl_tree.specs.Declarations.{package_parts};
ghost use Rattle.aadl_tree.specs.proof.PackageViews.{meaning};
ghost use Rattle.aadl_print.specs.proof.PrintedText.{printed};

mod actions;
mod annex;
mod declarations;
mod expressions;
mod names;
mod print_item;
mod printer;
mod round_trip;
mod spacing;
mod values;

use aadl_tree::{Mark, PackageTree};
use print_item::{PrintItem, print_all};
use printer::Printer;
pub use round_trip::is_read_back;
use std::alloc::{AllocError, Global};

/// Returns the canonical text of a tree. Errors: out of memory.
pub fn print(alloc: Global, tree: &PackageTree) -> Result<Vec<u8>, AllocError>
    ensures { IfOk result (λ text. text.items ≡ canon (meaning tree.now)) }
{
    let mut printer = Printer::new(alloc);
    print_package(&mut printer, tree)?;
    printer.finish()
}

#[tactic(auto, using(crate::proofs::PrintedLists::printed_append))]
fn print_package(printer: &mut Printer, tree: &PackageTree) -> Result<(), AllocError>
    ensures { OnOk result (printer.new ≡ printed printer.old (package_parts (meaning tree.now))) }
{
    printer.mark(Mark::Package)?;
    tree.name.print(printer)?;
    printer.mark(Mark::Public)?;
    print_all(printer, tree.withs.as_slice())?;
    print_all(printer, tree.declarations.as_slice())?;
    printer.mark(Mark::End)?;
    tree.end_name.print(printer)?;
    printer.mark(Mark::Semicolon)
}
