//! The bit of each subformula: its value on the frames of a round, and in the next round from the stored bits.
ghost use Rattle.std.specs.Prelude.{◌≡◌, ◌<◌, length, is_some, Some, slice_get};
ghost use Rattle.run_monitor.specs.FormulaSemantics.{frame_in, variable_in, compares};
ghost use Rattle.run_monitor.specs.proof.FlatForms.{IsFlat};
ghost use Rattle.run_monitor.specs.proof.FormBits.{bit_at, seen_bit, row_bit, next_bit, row_of, AreSeen, AreOfRow};
ghost use Rattle.run_monitor.specs.proof.FormBits.{AreNext};

use crate::flat_form::FlatForm;
use pals_base::{Frame, ItemList, NodeNo};
use pals_model::Part;
use pals_runs::Compare;

fn form_at(forms: &[FlatForm], at: usize) -> FlatForm
    requires { at < length forms.now }
    ensures { slice_get forms.now at ≡ Some result }
{
    forms[at]
}

// A bit, false past the end.
pub(crate) fn bit_at(bits: &[bool], at: usize) -> bool
    ensures { result ≡ bit_at bits.now at }
{
    if at < bits.len() { bits[at] } else { false }
}

fn compares(op: Compare, left: i64, right: i64) -> bool
    ensures { result ≡ compares op left right }
{
    match op {
        Compare::Eq => left == right,
        Compare::Ne => left != right,
        Compare::Lt => left < right,
        Compare::Le => left <= right,
        Compare::Gt => left > right,
        Compare::Ge => left >= right,
    }
}

// A variable of a frame, 0 past the end.
fn variable_in(frame: &Frame, variable: u32) -> i64
    ensures { result ≡ variable_in frame.now variable }
{
    let values = frame.vars.as_slice();
    let at = variable as usize;
    if at < values.len() { values[at] } else { 0 }
}

// The value of a subformula on a frame of a component, if it reads that component; else the bit from before.
fn seen_bit(form: FlatForm, node: NodeNo, frame: &Frame, before: bool) -> bool
    ensures { result ≡ seen_bit form node.0 frame.now before }
{
    match form {
        FlatForm::Var {
            node: of,
            variable,
            op,
            number,
        } => {
            if of.0 == node.0 {
                compares(op, variable_in(frame, variable), number)
            } else {
                before
            }
        }
        FlatForm::Halted(of) => {
            if of.0 == node.0 {
                frame.halt.is_some()
            } else {
                before
            }
        }
        _ => before,
    }
}

/// Writes the value of each subformula on a frame of a component, if it reads that component.
pub(crate) fn see_frame(forms: &[FlatForm], node: NodeNo, frame: &Frame, bits: &mut ItemList<bool>)
    requires { length bits.old ≡ length forms.now }
    ensures len { length bits.new ≡ length bits.old }
    ensures each { AreSeen forms.now node.0 frame.now bits.old bits.new }
{
    for at in 0..forms.len() {
        let form = form_at(forms, at);
        let bit = seen_bit(form, node, frame, bit_at(bits.as_slice(), at));
        bits.set(at, bit);
    }
}

// A variable of a component, 0 if it does not exist.
fn variable_at(parts: &[Part], node: NodeNo, variable: u32) -> i64
    ensures { result ≡ variable_in (frame_in (row_of parts.now) node.0) variable }
{
    match parts.get(node.0 as usize) {
        Some(part) => variable_in(&part.frame, variable),
        None => 0,
    }
}

// Whether a component is halted; one that is not there is not.
fn is_halted(parts: &[Part], node: NodeNo) -> bool
    ensures { result ≡ is_some (frame_in (row_of parts.now) node.0).halt }
{
    match parts.get(node.0 as usize) {
        Some(part) => part.frame.halt.is_some(),
        None => false,
    }
}

// The value of a subformula on the frames of all components, if it reads one; else the bit from before.
fn row_bit(form: FlatForm, parts: &[Part], before: bool) -> bool
    ensures { result ≡ row_bit form (row_of parts.now) before }
{
    match form {
        FlatForm::Var {
            node,
            variable,
            op,
            number,
        } => compares(op, variable_at(parts, node, variable), number),
        FlatForm::Halted(node) => is_halted(parts, node),
        _ => before,
    }
}

/// Writes the value of each subformula on the frames of all components, if it reads one.
pub(crate) fn see_row(forms: &[FlatForm], parts: &[Part], bits: &mut ItemList<bool>)
    requires { length bits.old ≡ length forms.now }
    ensures len { length bits.new ≡ length bits.old }
    ensures each { AreOfRow forms.now (row_of parts.now) bits.old bits.new }
{
    for at in 0..forms.len() {
        let form = form_at(forms, at);
        let bit = row_bit(form, parts, bit_at(bits.as_slice(), at));
        bits.set(at, bit);
    }
}

// The bit of a subformula in the next round. The bits of its parts are new; a subformula without parts has
// its value on the frames that were seen.
fn next_bit(form: FlatForm, at: usize, begun: bool, kept: &[bool], bits: &[bool]) -> bool
    ensures { result ≡ next_bit form at begun kept.now bits.now (bit_at bits.now at) }
{
    match form {
        FlatForm::Var { .. } | FlatForm::Halted(_) => bit_at(bits, at),
        FlatForm::Not(part) => !bit_at(bits, part),
        FlatForm::And(left, right) => bit_at(bits, left) && bit_at(bits, right),
        FlatForm::Or(left, right) => bit_at(bits, left) || bit_at(bits, right),
        FlatForm::Previous(part) => begun && bit_at(kept, part),
        FlatForm::Once(part) => (begun && bit_at(kept, at)) || bit_at(bits, part),
        FlatForm::Historically(part) => (!begun || bit_at(kept, at)) && bit_at(bits, part),
        FlatForm::Since(left, right) => {
            ((begun && bit_at(kept, at)) && bit_at(bits, left)) || bit_at(bits, right)
        }
    }
}

/// Writes the bit that each form has in a further round.
pub(crate) fn advance_all(forms: &[FlatForm], begun: bool, kept: &[bool], bits: &mut ItemList<bool>)
    requires size { length bits.old ≡ length forms.now }
    requires order { IsFlat forms.now }
    ensures len { length bits.new ≡ length bits.old }
    ensures each { AreNext forms.now begun kept.now bits.old bits.new }
{
    for at in 0..forms.len() {
        let form = form_at(forms, at);
        let bit = next_bit(form, at, begun, kept, bits.as_slice());
        bits.set(at, bit);
    }
}
