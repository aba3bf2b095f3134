//! Prints names and references.
#![tactic(auto, using(crate::proofs::PrintedLists::printed_append))]

ghost use Rattle.std.specs.Prelude.{◌≡◌, map, flat_map, OnOk};
ghost use Rattle.aadl_tree.specs.Names.{qualifier_parts};
ghost use Rattle.aadl_tree.specs.proof.NameViews.{identifier_view};
ghost use Rattle.aadl_tree.specs.proof.PlaceMaps.{no_place};
ghost use Rattle.aadl_print.specs.proof.PrintedText.{printed};

use crate::print_item::{PrintItem, print_behind, print_chain};
use crate::printer::Printer;
use aadl_tree::{Identifier, Identifiers, Mark, Name, Path, Reference};
use std::alloc::AllocError;

impl PrintItem for Identifier {
    ghost use Rattle.aadl_tree.specs.Names.{Identifier, identifier_parts};
    ghost use Rattle.aadl_tree.specs.proof.NameViews.{identifier_view};
    ghost use Rattle.aadl_tree.specs.proof.PlaceMaps.{no_place};

    ghost Tree = { Identifier (Unit {0}) };

    ghost tree = { identifier_view no_place };

    ghost parts = { identifier_parts };

    fn print(&self, printer: &mut Printer) -> Result<(), AllocError> {
        printer.verbatim(self.spelling.as_bytes())
    }
}

impl PrintItem for Name {
    ghost use Rattle.aadl_tree.specs.Names.{Name, name_parts};
    ghost use Rattle.aadl_tree.specs.proof.NameViews.{name_view};
    ghost use Rattle.aadl_tree.specs.proof.PlaceMaps.{no_place};

    ghost Tree = { Name (Unit {0}) };

    ghost tree = { name_view no_place };

    ghost parts = { name_parts };

    fn print(&self, printer: &mut Printer) -> Result<(), AllocError> {
        print_chain(printer, Mark::Scope, &self.first, self.rest.as_slice())
    }
}

impl PrintItem for Path {
    ghost use Rattle.aadl_tree.specs.Names.{Path, path_parts};
    ghost use Rattle.aadl_tree.specs.proof.NameViews.{path_view};
    ghost use Rattle.aadl_tree.specs.proof.PlaceMaps.{no_place};

    ghost Tree = { Path (Unit {0}) };

    ghost tree = { path_view no_place };

    ghost parts = { path_parts };

    fn print(&self, printer: &mut Printer) -> Result<(), AllocError> {
        print_chain(printer, Mark::Dot, &self.first, self.rest.as_slice())
    }
}

impl PrintItem for Identifiers {
    ghost use Rattle.aadl_tree.specs.Names.{Identifiers, identifiers_parts};
    ghost use Rattle.aadl_tree.specs.proof.NameViews.{identifiers_view};
    ghost use Rattle.aadl_tree.specs.proof.PlaceMaps.{no_place};

    ghost Tree = { Identifiers (Unit {0}) };

    ghost tree = { identifiers_view no_place };

    ghost parts = { identifiers_parts };

    fn print(&self, printer: &mut Printer) -> Result<(), AllocError> {
        print_chain(printer, Mark::Comma, &self.first, self.rest.as_slice())
    }
}

/// Prints the words of a package name, each with `::` after it.
fn print_qualifiers(printer: &mut Printer, names: &[Identifier]) -> Result<(), AllocError>
    ensures { OnOk result (printer.new
        ≡ printed printer.old (flat_map qualifier_parts (map (identifier_view no_place) names.now))) }
{
    for name in names {
        name.print(printer)?;
        printer.mark(Mark::Scope)?;
    }
    Ok(())
}

impl PrintItem for Reference {
    ghost use Rattle.aadl_tree.specs.Names.{Reference, reference_parts};
    ghost use Rattle.aadl_tree.specs.proof.NameViews.{reference_view};
    ghost use Rattle.aadl_tree.specs.proof.PlaceMaps.{no_place};

    ghost Tree = { Reference (Unit {0}) };

    ghost tree = { reference_view no_place };

    ghost parts = { reference_parts };

    fn print(&self, printer: &mut Printer) -> Result<(), AllocError> {
        print_qualifiers(printer, self.qualifiers.as_slice())?;
        self.type_name.print(printer)?;
        print_behind(printer, Mark::Dot, &self.implementation)
    }
}
