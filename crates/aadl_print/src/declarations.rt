//! Prints types, implementations, and their members.
#![tactic(auto, using(crate::proofs::PrintedLists::printed_append))]

ghost use Rattle.std.specs.Prelude.{◌≡◌};
ghost use Rattle.aadl_tree.specs.Declarations.{category_mark, direction_mark};

use crate::print_item::{
    PrintItem, print_all, print_behind, print_chain, print_option, print_section,
};
use crate::printer::Printer;
use crate::values::{print_own_properties, print_properties};
use aadl_tree::{
    Category, Connection, ConnectionEnd, Declaration, Direction, Feature, Implementation,
    ImplementationName, Mark, Subcomponent, TypeDeclaration, With,
};
use std::alloc::AllocError;

fn category_mark(category: Category) -> Mark
    ensures { result ≡ category_mark category }
{
    match category {
        Category::System => Mark::System,
        Category::Process => Mark::Process,
        Category::Thread => Mark::Thread,
    }
}

fn direction_mark(direction: Direction) -> Mark
    ensures { result ≡ direction_mark direction }
{
    match direction {
        Direction::In => Mark::In,
        Direction::Out => Mark::Out,
    }
}

impl PrintItem for With {
    ghost use Rattle.aadl_tree.specs.Declarations.{With, with_parts};
    ghost use Rattle.aadl_tree.specs.proof.DeclarationViews.{with_view};
    ghost use Rattle.aadl_tree.specs.proof.PlaceMaps.{no_place};

    ghost Tree = { With (Unit {0}) };

    ghost tree = { with_view no_place };

    ghost parts = { with_parts };

    fn print(&self, printer: &mut Printer) -> Result<(), AllocError> {
        printer.mark(Mark::With)?;
        print_chain(printer, Mark::Comma, &self.first, self.rest.as_slice())?;
        printer.mark(Mark::Semicolon)
    }
}

impl PrintItem for Feature {
    ghost use Rattle.aadl_tree.specs.Declarations.{Feature, feature_parts};
    ghost use Rattle.aadl_tree.specs.proof.DeclarationViews.{feature_view};
    ghost use Rattle.aadl_tree.specs.proof.PlaceMaps.{no_place};

    ghost Tree = { Feature (Unit {0}) };

    ghost tree = { feature_view no_place };

    ghost parts = { feature_parts };

    fn print(&self, printer: &mut Printer) -> Result<(), AllocError> {
        self.name.print(printer)?;
        printer.mark(Mark::Colon)?;
        printer.mark(direction_mark(self.direction))?;
        printer.mark(Mark::Data)?;
        printer.mark(Mark::Port)?;
        print_option(printer, &self.data_type)?;
        print_properties(printer, self.properties.as_slice())?;
        printer.mark(Mark::Semicolon)
    }
}

impl PrintItem for Subcomponent {
    ghost use Rattle.aadl_tree.specs.Declarations.{Subcomponent, subcomponent_parts};
    ghost use Rattle.aadl_tree.specs.proof.DeclarationViews.{subcomponent_view};
    ghost use Rattle.aadl_tree.specs.proof.PlaceMaps.{no_place};

    ghost Tree = { Subcomponent (Unit {0}) };

    ghost tree = { subcomponent_view no_place };

    ghost parts = { subcomponent_parts };

    fn print(&self, printer: &mut Printer) -> Result<(), AllocError> {
        self.name.print(printer)?;
        printer.mark(Mark::Colon)?;
        printer.mark(category_mark(self.category))?;
        self.classifier.print(printer)?;
        print_properties(printer, self.properties.as_slice())?;
        printer.mark(Mark::Semicolon)
    }
}

impl PrintItem for ConnectionEnd {
    ghost use Rattle.aadl_tree.specs.Declarations.{ConnectionEnd, end_parts};
    ghost use Rattle.aadl_tree.specs.proof.DeclarationViews.{end_view};
    ghost use Rattle.aadl_tree.specs.proof.PlaceMaps.{no_place};

    ghost Tree = { ConnectionEnd (Unit {0}) };

    ghost tree = { end_view no_place };

    ghost parts = { end_parts };

    fn print(&self, printer: &mut Printer) -> Result<(), AllocError> {
        self.first.print(printer)?;
        print_behind(printer, Mark::Dot, &self.second)
    }
}

impl PrintItem for Connection {
    ghost use Rattle.aadl_tree.specs.Declarations.{Connection, connection_parts};
    ghost use Rattle.aadl_tree.specs.proof.DeclarationViews.{connection_view};
    ghost use Rattle.aadl_tree.specs.proof.PlaceMaps.{no_place};

    ghost Tree = { Connection (Unit {0}) };

    ghost tree = { connection_view no_place };

    ghost parts = { connection_parts };

    fn print(&self, printer: &mut Printer) -> Result<(), AllocError> {
        self.name.print(printer)?;
        printer.mark(Mark::Colon)?;
        printer.mark(Mark::Port)?;
        self.source.print(printer)?;
        printer.mark(Mark::Arrow)?;
        self.target.print(printer)?;
        print_properties(printer, self.properties.as_slice())?;
        printer.mark(Mark::Semicolon)
    }
}

impl PrintItem for TypeDeclaration {
    ghost use Rattle.aadl_tree.specs.Declarations.{TypeDeclaration, type_parts};
    ghost use Rattle.aadl_tree.specs.proof.DeclarationViews.{type_view};
    ghost use Rattle.aadl_tree.specs.proof.PlaceMaps.{no_place};

    ghost Tree = { TypeDeclaration (Unit {0}) };

    ghost tree = { type_view no_place };

    ghost parts = { type_parts };

    fn print(&self, printer: &mut Printer) -> Result<(), AllocError> {
        printer.mark(category_mark(self.category))?;
        self.name.print(printer)?;
        print_section(printer, Mark::Features, self.features.as_slice())?;
        print_own_properties(printer, self.properties.as_slice())?;
        print_all(printer, self.annexes.as_slice())?;
        printer.mark(Mark::End)?;
        self.end_name.print(printer)?;
        printer.mark(Mark::Semicolon)
    }
}

impl PrintItem for ImplementationName {
    ghost use Rattle.aadl_tree.specs.Declarations.{ImplementationName, implementation_name_parts};
    ghost use Rattle.aadl_tree.specs.proof.DeclarationViews.{implementation_name_view};
    ghost use Rattle.aadl_tree.specs.proof.PlaceMaps.{no_place};

    ghost Tree = { ImplementationName (Unit {0}) };

    ghost tree = { implementation_name_view no_place };

    ghost parts = { implementation_name_parts };

    fn print(&self, printer: &mut Printer) -> Result<(), AllocError> {
        self.component_type.print(printer)?;
        printer.mark(Mark::Dot)?;
        self.implementation.print(printer)
    }
}

impl PrintItem for Implementation {
    ghost use Rattle.aadl_tree.specs.Declarations.{Implementation, implementation_parts};
    ghost use Rattle.aadl_tree.specs.proof.DeclarationViews.{implementation_view};
    ghost use Rattle.aadl_tree.specs.proof.PlaceMaps.{no_place};

    ghost Tree = { Implementation (Unit {0}) };

    ghost tree = { implementation_view no_place };

    ghost parts = { implementation_parts };

    fn print(&self, printer: &mut Printer) -> Result<(), AllocError> {
        printer.mark(category_mark(self.category))?;
        printer.mark(Mark::Implementation)?;
        self.name.print(printer)?;
        print_section(printer, Mark::Subcomponents, self.subcomponents.as_slice())?;
        print_section(printer, Mark::Connections, self.connections.as_slice())?;
        print_own_properties(printer, self.properties.as_slice())?;
        print_all(printer, self.annexes.as_slice())?;
        printer.mark(Mark::End)?;
        self.end_name.print(printer)?;
        printer.mark(Mark::Semicolon)
    }
}

impl PrintItem for Declaration {
    ghost use Rattle.aadl_tree.specs.Declarations.{Declaration, declaration_parts};
    ghost use Rattle.aadl_tree.specs.proof.DeclarationViews.{declaration_view};
    ghost use Rattle.aadl_tree.specs.proof.PlaceMaps.{no_place};

    ghost Tree = { Declaration (Unit {0}) };

    ghost tree = { declaration_view no_place };

    ghost parts = { declaration_parts };

    fn print(&self, printer: &mut Printer) -> Result<(), AllocError> {
        match self {
            Declaration::Type(declared) => declared.print(printer),
            Declaration::Implementation(declared) => declared.print(printer),
        }
    }
}
