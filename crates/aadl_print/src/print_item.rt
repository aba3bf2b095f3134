//! Printable trees, and lists of them.
#![tactic(auto, using(crate::proofs::PrintedLists::printed_append))]

ghost use Rattle.std.specs.Prelude.{◌≡◌, ◌≢◌, List, [], map, flat_map, option_map, OnOk};
ghost use Rattle.aadl_tree.specs.SpellingParts.{SpellingPart, marked_if, parts_if, behind, chained};
ghost use Rattle.aadl_tree.specs.Annexes.{declared_parts};
ghost use Rattle.aadl_print.specs.proof.PrintedText.{printed, under};

use crate::printer::Printer;
use aadl_tree::Mark;
use std::alloc::AllocError;

/// A printable tree, which has a list of parts that spell it.
pub trait PrintItem {
    ghost use Rattle.std.specs.Prelude.{List};
    ghost use Rattle.aadl_tree.specs.SpellingParts.{SpellingPart};

    ghost Tree: { Type 0 };

    ghost tree: { Self → Tree };

    ghost parts: { Tree → List (SpellingPart (Unit {0})) };

    /// Prints the tree.
    fn print(&self, printer: &mut Printer) -> Result<(), AllocError>
        ensures { OnOk result (printer.new ≡ printed printer.old (parts (tree self.now))) };
}

impl<T: PrintItem> PrintItem for Box<T> {
    ghost Tree = { T.Tree };

    ghost tree = { λ boxed. T.tree boxed.value };

    ghost parts = { T.parts };

    fn print(&self, printer: &mut Printer) -> Result<(), AllocError> {
        (**self).print(printer)
    }
}

/// Prints one item after another. Errors: out of memory.
pub fn print_all<T: PrintItem>(printer: &mut Printer, items: &[T]) -> Result<(), AllocError>
    ensures { OnOk result (printer.new ≡ printed printer.old (flat_map T.parts (map T.tree items.now))) }
{
    for item in items {
        item.print(printer)?;
    }
    Ok(())
}

/// Prints an optional item. Errors: out of memory.
pub fn print_option<T: PrintItem>(printer: &mut Printer, item: &Option<T>) -> Result<(), AllocError>
    ensures { OnOk result (printer.new ≡ printed printer.old (parts_if T.parts (option_map T.tree item.now))) }
{
    match item {
        Some(item) => item.print(printer),
        None => Ok(()),
    }
}

/// Prints a symbol and an item, if there is an item. Errors: out of memory.
pub fn print_behind<T: PrintItem>(
    printer: &mut Printer,
    before: Mark,
    item: &Option<T>,
) -> Result<(), AllocError>
    ensures { OnOk result (printer.new
        ≡ printed printer.old (parts_if (behind before T.parts) (option_map T.tree item.now))) }
{
    if let Some(item) = item {
        printer.mark(before)?;
        item.print(printer)?;
    }
    Ok(())
}

/// Prints one or more items, with a symbol before each further one. Errors: out of memory.
pub fn print_chain<T: PrintItem>(
    printer: &mut Printer,
    separator: Mark,
    first: &T,
    rest: &[T],
) -> Result<(), AllocError>
    ensures { OnOk result (printer.new
        ≡ printed printer.old (chained separator T.parts (T.tree first.now) (map T.tree rest.now))) }
{
    first.print(printer)?;
    for item in rest {
        printer.mark(separator)?;
        item.print(printer)?;
    }
    Ok(())
}

/// Prints an optional keyword. Errors: out of memory.
pub fn print_if(printer: &mut Printer, keyword: Mark, stands: bool) -> Result<(), AllocError>
    ensures { OnOk result (printer.new ≡ printed printer.old (marked_if {P = Unit {0}} keyword stands)) }
{
    if stands {
        printer.mark(keyword)?;
    }
    Ok(())
}

/// Prints an optional list of declarations of an annex after its keyword. Errors: out of memory.
pub fn print_declared<T: PrintItem>(
    printer: &mut Printer,
    word: Mark,
    items: &Option<Vec<T>>,
) -> Result<(), AllocError>
    ensures { OnOk result (printer.new
        ≡ printed printer.old (parts_if (declared_parts word T.parts)
        (option_map (λ xs. map T.tree xs.items) items.now))) }
{
    if let Some(items) = items {
        printer.mark(word)?;
        print_all(printer, items.as_slice())?;
    }
    Ok(())
}

/// Prints a section after its keyword; nothing if the section is empty. Errors: out of memory.
pub fn print_section<T: PrintItem>(
    printer: &mut Printer,
    word: Mark,
    items: &[T],
) -> Result<(), AllocError>
    requires { (tree : T.Tree) → T.parts tree ≢ [] }
    ensures { OnOk result (printer.new
        ≡ printed printer.old (under word (flat_map T.parts (map T.tree items.now)))) }
{
    if items.is_empty() {
        return Ok(());
    }
    printer.mark(word)?;
    print_all(printer, items)
}
