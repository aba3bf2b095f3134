//! Prints annexes, and the declarations of a behaviour.
#![tactic(auto, using(crate::proofs::PrintedLists::printed_append))]

ghost use Rattle.std.specs.Prelude.{◌≡◌, option_map, OnOk};
ghost use Rattle.aadl_tree.specs.SpellingParts.{parts_if};
ghost use Rattle.aadl_tree.specs.Annexes.{label_parts};
ghost use Rattle.aadl_tree.specs.proof.NameViews.{identifier_view};
ghost use Rattle.aadl_tree.specs.proof.PlaceMaps.{no_place};
ghost use Rattle.aadl_print.specs.proof.PrintedText.{printed};

use crate::expressions::print_expression;
use crate::print_item::{PrintItem, print_all, print_declared, print_if, print_option};
use crate::printer::Printer;
use crate::values::print_properties;
use aadl_tree::{
    Annex, AnnexContent, AnnexTree, Guard, Identifier, Mark, StateDeclaration, Transition,
    VariableDeclaration,
};
use std::alloc::AllocError;

impl PrintItem for VariableDeclaration {
    ghost use Rattle.aadl_tree.specs.Annexes.{VariableDeclaration, variable_parts};
    ghost use Rattle.aadl_tree.specs.proof.AnnexViews.{variable_view};
    ghost use Rattle.aadl_tree.specs.proof.PlaceMaps.{no_place};

    ghost Tree = { VariableDeclaration (Unit {0}) };

    ghost tree = { variable_view no_place };

    ghost parts = { variable_parts };

    fn print(&self, printer: &mut Printer) -> Result<(), AllocError> {
        self.names.print(printer)?;
        printer.mark(Mark::Colon)?;
        self.data_type.print(printer)?;
        print_properties(printer, self.properties.as_slice())?;
        printer.mark(Mark::Semicolon)
    }
}

impl PrintItem for StateDeclaration {
    ghost use Rattle.aadl_tree.specs.Annexes.{StateDeclaration, state_parts};
    ghost use Rattle.aadl_tree.specs.proof.AnnexViews.{state_view};
    ghost use Rattle.aadl_tree.specs.proof.PlaceMaps.{no_place};

    ghost Tree = { StateDeclaration (Unit {0}) };

    ghost tree = { state_view no_place };

    ghost parts = { state_parts };

    fn print(&self, printer: &mut Printer) -> Result<(), AllocError> {
        self.names.print(printer)?;
        printer.mark(Mark::Colon)?;
        print_if(printer, Mark::Initial, self.initial)?;
        print_if(printer, Mark::Complete, self.complete)?;
        printer.mark(Mark::State)?;
        printer.mark(Mark::Semicolon)
    }
}

impl PrintItem for Guard {
    ghost use Rattle.aadl_tree.specs.Annexes.{Guard, guard_parts};
    ghost use Rattle.aadl_tree.specs.proof.AnnexViews.{guard_view};
    ghost use Rattle.aadl_tree.specs.proof.PlaceMaps.{no_place};

    ghost Tree = { Guard (Unit {0}) };

    ghost tree = { guard_view no_place };

    ghost parts = { guard_parts };

    fn print(&self, printer: &mut Printer) -> Result<(), AllocError> {
        match self {
            Guard::Dispatch => {
                printer.mark(Mark::On)?;
                printer.mark(Mark::Dispatch)
            }
            Guard::Otherwise => printer.mark(Mark::Otherwise),
            Guard::When(test) => print_expression(printer, test),
        }
    }
}

/// Prints a transition's label, which has no meaning, and a colon after it.
fn print_label(printer: &mut Printer, label: &Option<Identifier>) -> Result<(), AllocError>
    ensures { OnOk result (printer.new
        ≡ printed printer.old (parts_if label_parts (option_map (identifier_view no_place) label.now))) }
{
    if let Some(label) = label {
        label.print(printer)?;
        printer.mark(Mark::Colon)?;
    }
    Ok(())
}

impl PrintItem for Transition {
    ghost use Rattle.aadl_tree.specs.Annexes.{Transition, transition_parts};
    ghost use Rattle.aadl_tree.specs.proof.AnnexViews.{transition_view};
    ghost use Rattle.aadl_tree.specs.proof.PlaceMaps.{no_place};

    ghost Tree = { Transition (Unit {0}) };

    ghost tree = { transition_view no_place };

    ghost parts = { transition_parts };

    fn print(&self, printer: &mut Printer) -> Result<(), AllocError> {
        print_label(printer, &self.label)?;
        self.source.print(printer)?;
        printer.mark(Mark::GuardOpen)?;
        print_option(printer, &self.guard)?;
        printer.mark(Mark::GuardClose)?;
        self.target.print(printer)?;
        print_option(printer, &self.effect)?;
        printer.mark(Mark::Semicolon)
    }
}

impl PrintItem for AnnexTree {
    ghost use Rattle.aadl_tree.specs.Annexes.{AnnexTree, annex_tree_parts};
    ghost use Rattle.aadl_tree.specs.proof.AnnexViews.{annex_tree_view};
    ghost use Rattle.aadl_tree.specs.proof.PlaceMaps.{no_place};

    ghost Tree = { AnnexTree (Unit {0}) };

    ghost tree = { annex_tree_view no_place };

    ghost parts = { annex_tree_parts };

    fn print(&self, printer: &mut Printer) -> Result<(), AllocError> {
        print_declared(printer, Mark::Variables, &self.variables)?;
        print_declared(printer, Mark::States, &self.states)?;
        print_declared(printer, Mark::Transitions, &self.transitions)
    }
}

impl PrintItem for AnnexContent {
    ghost use Rattle.aadl_tree.specs.Annexes.{AnnexContent, content_parts};
    ghost use Rattle.aadl_tree.specs.proof.AnnexViews.{content_view};
    ghost use Rattle.aadl_tree.specs.proof.PlaceMaps.{no_place};

    ghost Tree = { AnnexContent (Unit {0}) };

    ghost tree = { content_view no_place };

    ghost parts = { content_parts };

    fn print(&self, printer: &mut Printer) -> Result<(), AllocError> {
        match self {
            AnnexContent::Unread(bytes) => printer.verbatim(bytes.as_slice()),
            AnnexContent::Behaviour(behaviour) => {
                printer.mark(Mark::AnnexOpen)?;
                behaviour.print(printer)?;
                printer.mark(Mark::AnnexClose)
            }
        }
    }
}

impl PrintItem for Annex {
    ghost use Rattle.aadl_tree.specs.Annexes.{Annex, annex_parts};
    ghost use Rattle.aadl_tree.specs.proof.AnnexViews.{annex_view};
    ghost use Rattle.aadl_tree.specs.proof.PlaceMaps.{no_place};

    ghost Tree = { Annex (Unit {0}) };

    ghost tree = { annex_view no_place };

    ghost parts = { annex_parts };

    fn print(&self, printer: &mut Printer) -> Result<(), AllocError> {
        printer.mark(Mark::Annex)?;
        self.language.print(printer)?;
        self.content.print(printer)?;
        printer.mark(Mark::Semicolon)
    }
}
