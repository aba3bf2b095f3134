//! Prints properties and their values.
#![tactic(auto, using(crate::proofs::PrintedLists::printed_append))]

ghost use Rattle.std.specs.Prelude.{◌≡◌, map, OnOk};
ghost use Rattle.aadl_tree.specs.declared.mark.Mark.TheVariants as k;
ghost use Rattle.aadl_tree.specs.Values.{sign_mark, association_mark, applies_parts, value_parts, values_parts};
ghost use Rattle.aadl_tree.specs.Values.{association_parts, associations_parts, properties_parts};
ghost use Rattle.aadl_tree.specs.proof.NameViews.{path_view};
ghost use Rattle.aadl_tree.specs.proof.ValueViews.{value_view, values_view, association_view, associations_view};
ghost use Rattle.aadl_tree.specs.proof.PlaceMaps.{no_place};
ghost use Rattle.aadl_print.specs.proof.PrintedText.{printed, under};

use crate::print_item::{PrintItem, print_behind, print_chain, print_if, print_option};
use crate::printer::Printer;
use aadl_tree::{
    Association, AssociationOperator, Mark, Number, Path, Quantity, Sign, UnsignedNumber, Value,
};
use std::alloc::AllocError;

/// Returns the symbol of a sign.
pub fn sign_mark(sign: Sign) -> Mark
    ensures { result ≡ sign_mark sign }
{
    match sign {
        Sign::Plus => Mark::Plus,
        Sign::Minus => Mark::Minus,
    }
}

fn association_mark(operator: AssociationOperator) -> Mark
    ensures { result ≡ association_mark operator }
{
    match operator {
        AssociationOperator::Becomes => Mark::Becomes,
        AssociationOperator::Appends => Mark::Appends,
    }
}

impl PrintItem for UnsignedNumber {
    ghost use Rattle.aadl_tree.specs.Values.{UnsignedNumber, figure_parts};
    ghost use Rattle.aadl_tree.specs.proof.ValueViews.{figure_view};

    ghost Tree = { UnsignedNumber };

    ghost tree = { figure_view };

    ghost parts = { figure_parts };

    fn print(&self, printer: &mut Printer) -> Result<(), AllocError> {
        match self {
            UnsignedNumber::Whole(value) => printer.whole(*value),
            UnsignedNumber::Real(bytes) => printer.verbatim(bytes.as_slice()),
        }
    }
}

impl PrintItem for Number {
    ghost use Rattle.aadl_tree.specs.Values.{Number, number_parts};
    ghost use Rattle.aadl_tree.specs.proof.ValueViews.{number_view};

    ghost Tree = { Number };

    ghost tree = { number_view };

    ghost parts = { number_parts };

    fn print(&self, printer: &mut Printer) -> Result<(), AllocError> {
        if let Some(sign) = self.sign {
            printer.mark(sign_mark(sign))?;
        }
        self.figure.print(printer)
    }
}

impl PrintItem for Quantity {
    ghost use Rattle.aadl_tree.specs.Values.{Quantity, quantity_parts};
    ghost use Rattle.aadl_tree.specs.proof.ValueViews.{quantity_view};
    ghost use Rattle.aadl_tree.specs.proof.PlaceMaps.{no_place};

    ghost Tree = { Quantity (Unit {0}) };

    ghost tree = { quantity_view no_place };

    ghost parts = { quantity_parts };

    fn print(&self, printer: &mut Printer) -> Result<(), AllocError> {
        self.number.print(printer)?;
        print_option(printer, &self.unit)
    }
}

/// Prints the paths that a property applies to, if there are any.
fn print_applies(printer: &mut Printer, paths: &[Path]) -> Result<(), AllocError>
    ensures { OnOk result (printer.new
        ≡ printed printer.old (applies_parts (map (path_view no_place) paths.now))) }
{
    let [first, rest @ ..] = paths else {
        return Ok(());
    };
    printer.mark(Mark::Applies)?;
    printer.mark(Mark::To)?;
    print_chain(printer, Mark::Comma, first, rest)
}

/// Prints a value. The recursion is as deep as the value. Errors: out of memory.
#[cycle(value)]
pub fn print_value(printer: &mut Printer, value: &Value) -> Result<(), AllocError>
    ensures { OnOk result (printer.new ≡ printed printer.old (value_parts (value_view no_place value.now))) }
{
    match value {
        Value::List(values) => {
            printer.mark(Mark::ParenOpen)?;
            print_values(printer, values)?;
            printer.mark(Mark::ParenClose)
        }
        Value::Record(associations) => {
            printer.mark(Mark::BracketOpen)?;
            print_associations(printer, associations)?;
            printer.mark(Mark::BracketClose)
        }
        Value::Text(bytes) => printer.verbatim(bytes.as_slice()),
        Value::Reference(path) => {
            printer.mark(Mark::Reference)?;
            printer.mark(Mark::ParenOpen)?;
            path.print(printer)?;
            printer.mark(Mark::ParenClose)
        }
        Value::Classifier(reference) => {
            printer.mark(Mark::Classifier)?;
            printer.mark(Mark::ParenOpen)?;
            reference.print(printer)?;
            printer.mark(Mark::ParenClose)
        }
        Value::Named(reference) => reference.print(printer),
        Value::Number { low, high } => {
            low.print(printer)?;
            print_behind(printer, Mark::Range, high)
        }
    }
}

#[cycle(value)]
fn print_values(printer: &mut Printer, values: &[Value]) -> Result<(), AllocError>
    ensures { OnOk result (printer.new ≡ printed printer.old (values_parts (values_view no_place values.now))) }
{
    let [first, rest @ ..] = values else {
        return Ok(());
    };
    print_value(printer, first)?;
    for value in rest {
        printer.mark(Mark::Comma)?;
        print_value(printer, value)?;
    }
    Ok(())
}

#[cycle(value)]
fn print_association(printer: &mut Printer, association: &Association) -> Result<(), AllocError>
    ensures { OnOk result (printer.new
        ≡ printed printer.old (association_parts (association_view no_place association.now))) }
{
    association.name.print(printer)?;
    printer.mark(association_mark(association.operator))?;
    print_if(printer, Mark::Constant, association.constant)?;
    print_value(printer, &association.value)?;
    print_applies(printer, association.applies_to.as_slice())?;
    printer.mark(Mark::Semicolon)
}

#[cycle(value)]
fn print_associations(printer: &mut Printer, associations: &[Association]) -> Result<(), AllocError>
    ensures { OnOk result (printer.new
        ≡ printed printer.old (associations_parts (associations_view no_place associations.now))) }
{
    for association in associations {
        print_association(printer, association)?;
    }
    Ok(())
}

/// Prints properties in braces; nothing if there are none. Errors: out of memory.
pub fn print_properties(printer: &mut Printer, properties: &[Association]) -> Result<(), AllocError>
    ensures { OnOk result (printer.new
        ≡ printed printer.old (properties_parts (associations_view no_place properties.now))) }
{
    if properties.is_empty() {
        return Ok(());
    }
    printer.mark(Mark::BraceOpen)?;
    print_associations(printer, properties)?;
    printer.mark(Mark::BraceClose)
}

/// Prints the section of the properties of a type or an implementation; nothing if there are none. Errors: out
/// of memory.
pub fn print_own_properties(
    printer: &mut Printer,
    properties: &[Association],
) -> Result<(), AllocError>
    ensures { OnOk result (printer.new
        ≡ printed printer.old (under k.Properties (associations_parts (associations_view no_place properties.now)))) }
{
    if properties.is_empty() {
        return Ok(());
    }
    printer.mark(Mark::Properties)?;
    print_associations(printer, properties)
}
