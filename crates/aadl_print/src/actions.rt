//! Prints the actions of behaviours.
#![tactic(auto, using(crate::proofs::PrintedLists::printed_append))]

ghost use Rattle.std.specs.Prelude.{◌≡◌, OnOk};
ghost use Rattle.aadl_tree.specs.Actions.{test_parts, bound_parts, action_parts, actions_parts, block_parts};
ghost use Rattle.aadl_tree.specs.proof.ExpressionViews.{expression_view};
ghost use Rattle.aadl_tree.specs.proof.ActionViews.{action_view, actions_view, block_view, choice_view, loop_view};
ghost use Rattle.aadl_tree.specs.proof.PlaceMaps.{no_place};
ghost use Rattle.aadl_print.specs.proof.PrintedText.{printed};

use crate::expressions::print_expression;
use crate::print_item::{PrintItem, print_if};
use crate::printer::Printer;
use aadl_tree::{Action, Actions, Block, Bound, Choice, Expression, Loop, Mark};
use std::alloc::AllocError;

fn print_test(printer: &mut Printer, test: &Expression) -> Result<(), AllocError>
    ensures { OnOk result (printer.new ≡ printed printer.old (test_parts (expression_view no_place test.now))) }
{
    printer.mark(Mark::ParenOpen)?;
    print_expression(printer, test)?;
    printer.mark(Mark::ParenClose)
}

fn print_bound(printer: &mut Printer, bound: Bound) -> Result<(), AllocError>
    ensures { OnOk result (printer.new ≡ printed {P = Unit {0}} printer.old (bound_parts bound)) }
{
    print_if(printer, Mark::Minus, bound.negative)?;
    printer.whole(bound.value)
}

#[cycle(action)]
fn print_action(printer: &mut Printer, action: &Action) -> Result<(), AllocError>
    ensures { OnOk result (printer.new ≡ printed printer.old (action_parts (action_view no_place action.now))) }
{
    match action {
        Action::Assign { target, value } => {
            target.print(printer)?;
            printer.mark(Mark::Assign)?;
            print_expression(printer, value)
        }
        Action::Send { port, value } => {
            port.print(printer)?;
            printer.mark(Mark::Bang)?;
            print_test(printer, value)
        }
        Action::If(choice) => print_choice(printer, choice),
        Action::For(turns) => print_loop(printer, turns),
    }
}

#[cycle(action)]
fn print_actions(printer: &mut Printer, actions: &Actions) -> Result<(), AllocError>
    ensures { OnOk result (printer.new ≡ printed printer.old (actions_parts (actions_view no_place actions.now))) }
{
    print_action(printer, &actions.first)?;
    for action in &actions.rest {
        printer.mark(Mark::Semicolon)?;
        print_action(printer, action)?;
    }
    Ok(())
}

#[cycle(action)]
fn print_choice(printer: &mut Printer, choice: &Choice) -> Result<(), AllocError>
    ensures { OnOk result (printer.new ≡ printed printer.old (action_parts (choice_view no_place choice.now))) }
{
    printer.mark(Mark::If)?;
    print_test(printer, &choice.test)?;
    print_actions(printer, &choice.actions)?;
    for elsif in &choice.elsifs {
        printer.mark(Mark::Elsif)?;
        print_test(printer, &elsif.test)?;
        print_actions(printer, &elsif.actions)?;
    }
    if let Some(actions) = &choice.otherwise {
        printer.mark(Mark::Else)?;
        print_actions(printer, actions)?;
    }
    printer.mark(Mark::End)?;
    printer.mark(Mark::If)
}

#[cycle(action)]
fn print_loop(printer: &mut Printer, turns: &Loop) -> Result<(), AllocError>
    ensures { OnOk result (printer.new ≡ printed printer.old (action_parts (loop_view no_place turns.now))) }
{
    printer.mark(Mark::For)?;
    printer.mark(Mark::ParenOpen)?;
    turns.variable.print(printer)?;
    printer.mark(Mark::Colon)?;
    turns.data_type.print(printer)?;
    printer.mark(Mark::In)?;
    print_bound(printer, turns.low)?;
    printer.mark(Mark::Range)?;
    print_bound(printer, turns.high)?;
    printer.mark(Mark::ParenClose)?;
    print_block(printer, &turns.body)
}

/// Prints a block. The recursion is as deep as the block. Errors: out of memory.
#[cycle(action)]
pub fn print_block(printer: &mut Printer, block: &Block) -> Result<(), AllocError>
    ensures { OnOk result (printer.new ≡ printed printer.old (block_parts (block_view no_place block.now))) }
{
    printer.mark(Mark::BraceOpen)?;
    if let Some(actions) = &block.actions {
        print_actions(printer, actions)?;
    }
    printer.mark(Mark::BraceClose)
}

impl PrintItem for Block {
    ghost use Rattle.aadl_tree.specs.Actions.{Block, block_parts};
    ghost use Rattle.aadl_tree.specs.proof.ActionViews.{block_view};
    ghost use Rattle.aadl_tree.specs.proof.PlaceMaps.{no_place};

    ghost Tree = { Block (Unit {0}) };

    ghost tree = { block_view no_place };

    ghost parts = { block_parts };

    fn print(&self, printer: &mut Printer) -> Result<(), AllocError> {
        print_block(printer, self)
    }
}
