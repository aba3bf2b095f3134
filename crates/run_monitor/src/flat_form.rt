//! Lists of subformulas in which parts precede wholes.
ghost use Rattle.std.specs.Prelude.{length, IfOk};
ghost use Rattle.pals_runs.specs.proof.FormulasOfForms.{formula_of};
ghost use Rattle.run_monitor.specs.proof.FlatForms.{built, forms_of, HasParts, IsFlat, Adds};

use pals_base::{ItemList, NoMemory, NodeNo};
use pals_runs::{Compare, Form};

/// A form whose parts are named by their places in a list, which are before its own.
#[derive(Clone, Copy)]
pub enum FlatForm {
    Var {
        node: NodeNo,
        variable: u32,
        op: Compare,
        number: i64,
    },
    Halted(NodeNo),
    Not(usize),
    And(usize, usize),
    Or(usize, usize),
    Previous(usize),
    Once(usize),
    Historically(usize),
    Since(usize, usize),
}

// Appends a subformula whose parts are in the list, and returns its index.
fn push(forms: &mut ItemList<FlatForm>, form: FlatForm) -> Result<usize, NoMemory>
    requires order { IsFlat forms.old }
    requires parts { HasParts (length forms.old) form }
    ensures { IfOk result (λ at. Adds forms.old forms.new at (built (forms_of forms.old) form)) }
{
    let at = forms.len();
    forms.push(form)?;
    Ok(at)
}

/// Appends the subformulas of a formula, the whole last, and returns its index. The recursion is as deep as
/// the formula.
pub fn add(forms: &mut ItemList<FlatForm>, form: &Form) -> Result<usize, NoMemory>
    requires { IsFlat forms.old }
    ensures { IfOk result (λ at. Adds forms.old forms.new at (formula_of form.now)) }
{
    match form {
        Form::Var {
            node,
            variable,
            op,
            number,
        } => push(
            forms,
            FlatForm::Var {
                node: *node,
                variable: *variable,
                op: *op,
                number: *number,
            },
        ),
        Form::Halted(node) => push(forms, FlatForm::Halted(*node)),
        Form::Not(part) => {
            let part = add(forms, part)?;
            push(forms, FlatForm::Not(part))
        }
        Form::And(left, right) => {
            let left = add(forms, left)?;
            let right = add(forms, right)?;
            push(forms, FlatForm::And(left, right))
        }
        Form::Or(left, right) => {
            let left = add(forms, left)?;
            let right = add(forms, right)?;
            push(forms, FlatForm::Or(left, right))
        }
        Form::Previous(part) => {
            let part = add(forms, part)?;
            push(forms, FlatForm::Previous(part))
        }
        Form::Once(part) => {
            let part = add(forms, part)?;
            push(forms, FlatForm::Once(part))
        }
        Form::Historically(part) => {
            let part = add(forms, part)?;
            push(forms, FlatForm::Historically(part))
        }
        Form::Since(left, right) => {
            let left = add(forms, left)?;
            let right = add(forms, right)?;
            push(forms, FlatForm::Since(left, right))
        }
    }
}
