//! Prints the expressions of behaviours.
#![tactic(auto, using(crate::proofs::PrintedLists::printed_append))]

ghost use Rattle.std.specs.Prelude.{◌≡◌, OnOk};
ghost use Rattle.aadl_tree.specs.Expressions.{multiply_mark, relation_mark, logic_parts, primary_parts, factor_parts};
ghost use Rattle.aadl_tree.specs.Expressions.{term_parts, sum_parts, relation_parts, expression_parts};
ghost use Rattle.aadl_tree.specs.proof.ExpressionViews.{primary_view, factor_view, term_view, sum_view, relation_view};
ghost use Rattle.aadl_tree.specs.proof.ExpressionViews.{expression_view};
ghost use Rattle.aadl_tree.specs.proof.PlaceMaps.{no_place};
ghost use Rattle.aadl_print.specs.proof.PrintedText.{printed};

use crate::print_item::{PrintItem, print_option};
use crate::printer::Printer;
use crate::values::sign_mark;
use aadl_tree::{
    Expression, Factor, LeadingSign, LogicOperator, Mark, MultiplyOperator, Primary, Relation,
    RelationOperator, Sum, Term,
};
use std::alloc::AllocError;

fn multiply_mark(operator: MultiplyOperator) -> Mark
    ensures { result ≡ multiply_mark operator }
{
    match operator {
        MultiplyOperator::Times => Mark::Star,
        MultiplyOperator::Divide => Mark::Slash,
        MultiplyOperator::Mod => Mark::Mod,
        MultiplyOperator::Rem => Mark::Rem,
    }
}

fn relation_mark(operator: RelationOperator) -> Mark
    ensures { result ≡ relation_mark operator }
{
    match operator {
        RelationOperator::Equal => Mark::Equal,
        RelationOperator::NotEqual => Mark::NotEqual,
        RelationOperator::Less => Mark::Less,
        RelationOperator::LessOrEqual => Mark::LessOrEqual,
        RelationOperator::Greater => Mark::Greater,
        RelationOperator::GreaterOrEqual => Mark::GreaterOrEqual,
    }
}

fn print_logic(printer: &mut Printer, operator: LogicOperator) -> Result<(), AllocError>
    ensures { OnOk result (printer.new ≡ printed {P = Unit {0}} printer.old (logic_parts operator)) }
{
    match operator {
        LogicOperator::And => printer.mark(Mark::And),
        LogicOperator::Or => printer.mark(Mark::Or),
        LogicOperator::Xor => printer.mark(Mark::Xor),
        LogicOperator::AndThen => {
            printer.mark(Mark::And)?;
            printer.mark(Mark::Then)
        }
        LogicOperator::OrElse => {
            printer.mark(Mark::Or)?;
            printer.mark(Mark::Else)
        }
    }
}

impl PrintItem for LeadingSign {
    ghost use Rattle.aadl_tree.specs.Expressions.{LeadingSign, leading_parts};
    ghost use Rattle.aadl_tree.specs.proof.ExpressionViews.{leading_view};
    ghost use Rattle.aadl_tree.specs.proof.PlaceMaps.{no_place};

    ghost Tree = { LeadingSign (Unit {0}) };

    ghost tree = { leading_view no_place };

    ghost parts = { leading_parts };

    fn print(&self, printer: &mut Printer) -> Result<(), AllocError> {
        printer.mark(sign_mark(self.sign))
    }
}

/// Prints an expression. The recursion is as deep as the expression. Errors: out of memory.
#[cycle(expression)]
pub fn print_expression(printer: &mut Printer, expression: &Expression) -> Result<(), AllocError>
    ensures { OnOk result (printer.new
        ≡ printed printer.old (expression_parts (expression_view no_place expression.now))) }
{
    print_relation(printer, &expression.first)?;
    for (operator, relation) in &expression.rest {
        print_logic(printer, *operator)?;
        print_relation(printer, relation)?;
    }
    Ok(())
}

#[cycle(expression)]
fn print_relation(printer: &mut Printer, relation: &Relation) -> Result<(), AllocError>
    ensures { OnOk result (printer.new ≡ printed printer.old (relation_parts (relation_view no_place relation.now))) }
{
    print_sum(printer, &relation.left)?;
    if let Some(right) = &relation.right {
        printer.mark(relation_mark(right.0))?;
        print_sum(printer, &right.1)?;
    }
    Ok(())
}

#[cycle(expression)]
fn print_sum(printer: &mut Printer, sum: &Sum) -> Result<(), AllocError>
    ensures { OnOk result (printer.new ≡ printed printer.old (sum_parts (sum_view no_place sum.now))) }
{
    print_option(printer, &sum.sign)?;
    print_term(printer, &sum.first)?;
    for (sign, term) in &sum.rest {
        printer.mark(sign_mark(*sign))?;
        print_term(printer, term)?;
    }
    Ok(())
}

#[cycle(expression)]
fn print_term(printer: &mut Printer, term: &Term) -> Result<(), AllocError>
    ensures { OnOk result (printer.new ≡ printed printer.old (term_parts (term_view no_place term.now))) }
{
    print_factor(printer, &term.first)?;
    for (operator, factor) in &term.rest {
        printer.mark(multiply_mark(*operator))?;
        print_factor(printer, factor)?;
    }
    Ok(())
}

#[cycle(expression)]
fn print_factor(printer: &mut Printer, factor: &Factor) -> Result<(), AllocError>
    ensures { OnOk result (printer.new ≡ printed printer.old (factor_parts (factor_view no_place factor.now))) }
{
    match factor {
        Factor::Abs { operand, .. } => {
            printer.mark(Mark::Abs)?;
            print_primary(printer, operand)
        }
        Factor::Not { operand, .. } => {
            printer.mark(Mark::Not)?;
            print_primary(printer, operand)
        }
        Factor::Plain(operand) => print_primary(printer, operand),
    }
}

#[cycle(expression)]
fn print_primary(printer: &mut Printer, primary: &Primary) -> Result<(), AllocError>
    ensures { OnOk result (printer.new ≡ printed printer.old (primary_parts (primary_view no_place primary.now))) }
{
    match primary {
        Primary::Whole { value, .. } => printer.whole(*value),
        Primary::Truth { value, .. } => {
            printer.mark(if *value { Mark::True } else { Mark::False })
        }
        Primary::Named { name, fresh } => {
            name.print(printer)?;
            if *fresh {
                printer.mark(Mark::Tick)?;
                printer.mark(Mark::Fresh)?;
            }
            Ok(())
        }
        Primary::Group { inner, .. } => {
            printer.mark(Mark::ParenOpen)?;
            print_expression(printer, inner)?;
            printer.mark(Mark::ParenClose)
        }
    }
}
