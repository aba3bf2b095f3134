//! Parses the formula of a property; its size and nesting depth are limited.
ghost use Rattle.std.specs.Prelude.{◌≡◌, ◌-◌, ◌^◌, bytes_eq, position, option_copied, IfErr, IfOk, map, min};
ghost use Rattle.std.specs.Prelude.{option_and_then};
ghost use Rattle.serde_json.specs.Find.{as_str};
ghost use Rattle.serde_json.specs.View.{view};
ghost use Rattle.pals_base.specs.declared.behaviour.VarDecl.{VarDecl};
ghost use Rattle.pals_runs.specs.proof.FormulasOfForms.{formula_of};
ghost use Rattle.scenario_values.specs.ResultCombinators.{Answers, Shows};
ghost use Rattle.scenario_values.specs.FaultPlaces.{place_text};
ghost use Rattle.analysis_fields.specs.Properties.{vars_in, role_of, compare_of, has_parts, role_in, rest_of};
ghost use Rattle.analysis_fields.specs.Properties.{begins_parts, parts_among, parts_of, is_shallow, forms_in, is_small};
ghost use Rattle.analysis_fields.specs.Properties.{variable_at, var_form, halted_form, of_one, of_two, one_part};
ghost use Rattle.analysis_fields.specs.Properties.{two_parts, formula_in};

use crate::limits::{FORMS, LEVELS};
use pals_base::NodeNo;
use pals_model::Component;
use pals_runs::{Compare, Form};
use scenario_values::json_values::{elements, is_whole, number, text};
use scenario_values::placed_faults::{Place, out_of_range, unknown, wrong_kind};
use scenario_values::{DesignNames, ScenarioFault};
use serde_json::Value;
use std::alloc::Global;

/// The first word of a formula.
#[derive(Clone, Copy)]
pub enum FormulaWord {
    Var,
    Halted,
    Not,
    Previous,
    Once,
    Historically,
    And,
    Or,
    Since,
}

fn role_of(word: &str) -> Option<FormulaWord>
    ensures { result ≡ role_of word.now }
{
    if word == "var" {
        Some(FormulaWord::Var)
    } else if word == "halted" {
        Some(FormulaWord::Halted)
    } else if word == "not" {
        Some(FormulaWord::Not)
    } else if word == "previous" {
        Some(FormulaWord::Previous)
    } else if word == "once" {
        Some(FormulaWord::Once)
    } else if word == "historically" {
        Some(FormulaWord::Historically)
    } else if word == "and" {
        Some(FormulaWord::And)
    } else if word == "or" {
        Some(FormulaWord::Or)
    } else if word == "since" {
        Some(FormulaWord::Since)
    } else {
        None
    }
}

fn compare_of(word: &str) -> Option<Compare>
    ensures { result ≡ compare_of word.now }
{
    if word == "=" {
        Some(Compare::Eq)
    } else if word == "!=" {
        Some(Compare::Ne)
    } else if word == "<" {
        Some(Compare::Lt)
    } else if word == "<=" {
        Some(Compare::Le)
    } else if word == ">" {
        Some(Compare::Gt)
    } else if word == ">=" {
        Some(Compare::Ge)
    } else {
        None
    }
}

// Whether all values after the word are formulas.
fn has_parts(role: FormulaWord) -> bool
    ensures { result ≡ has_parts role }
{
    !matches!(role, FormulaWord::Var | FormulaWord::Halted)
}

// The first word of a list.
fn role_in(values: &[Value]) -> Option<FormulaWord>
    ensures { result ≡ role_in (map view values.now) }
{
    match values {
        [] => None,
        [word, ..] => match word.as_str() {
            Some(word) => role_of(word),
            None => None,
        },
    }
}

// All values except the first.
fn rest_of(values: &[Value]) -> &[Value]
    ensures { map view result.now ≡ rest_of (map view values.now) }
{
    match values {
        [] => &[],
        [_, rest @ ..] => rest,
    }
}

// Whether a list begins with a word that formulas follow.
fn begins_parts(values: &[Value]) -> bool
    ensures { result ≡ begins_parts (map view values.now) }
{
    match role_in(values) {
        Some(role) => has_parts(role),
        None => false,
    }
}

// The values after such a word.
fn parts_among(values: &[Value]) -> &[Value]
    ensures { map view result.now ≡ parts_among (map view values.now) }
{
    if begins_parts(values) {
        rest_of(values)
    } else {
        &[]
    }
}

// The values inside a value at which a formula may occur.
#[tactic(auto, unfolding(crate::specs::Properties::parts_of), using(scenario_values::proofs::JsonLists::values_seen))]
fn parts_of(value: &Value) -> &[Value]
    ensures { map view result.now ≡ parts_of (view value.now) }
{
    match value.as_array() {
        Some(values) => parts_among(values.as_slice()),
        None => &[],
    }
}

// Whether formulas nest at most `levels` deep.
fn is_shallow(levels: u32, value: &Value) -> bool
    ensures { result ≡ is_shallow levels (view value.now) }
{
    if levels == 0 {
        return false;
    }
    let parts = parts_of(value);
    for part in parts {
        if !is_shallow(levels - 1, part) {
            return false;
        }
    }
    true
}

// The number of formulas in the first levels, up to the maximum number.
#[tactic(auto, unfolding(crate::specs::Properties::forms_in))]
fn forms_in(levels: u32, value: &Value) -> usize
    ensures { result ≡ min (forms_in levels (view value.now)) (2 ^ 64 - 1) }
{
    if levels == 0 {
        return 0;
    }
    let parts = parts_of(value);
    let mut forms = 1usize;
    for part in parts {
        forms = forms.saturating_add(forms_in(levels - 1, part));
    }
    forms
}

/// Returns whether a property has at most as many formulas and levels as the limits allow.
#[tactic(auto, unfolding(crate::specs::Properties::is_small))]
pub fn is_small(value: &Value) -> bool
    ensures { result ≡ is_small (view value.now) }
{
    is_shallow(LEVELS, value) && forms_in(LEVELS, value) <= FORMS
}

// The index of the variable with this name among the variables of a component, if there is one.
fn find_variable(component: Option<&Component>, name: &str) -> Option<usize>
    ensures { result ≡ position (λ (v : VarDecl). bytes_eq name.now v.name) (vars_in (option_copied component.entry)) }
{
    match component {
        None => None,
        Some(component) => component
            .behaviour
            .vars()
            .iter()
            .position(|variable| name.as_bytes() == variable.name.as_bytes()),
    }
}

// A variable of a component.
#[tactic(auto, unfolding(crate::specs::Properties::variable_at))]
fn variable(
    alloc: Global,
    names: &DesignNames<'_>,
    place: Place<'_>,
    node: NodeNo,
    name: &str,
) -> Result<u32, ScenarioFault>
    ensures { Answers (variable_at (place_text place.entry) names.now node.0 name.now) result }
{
    match find_variable(names.design().parts().component(node), name) {
        Some(number) => Ok(number as u32),
        None => Err(unknown(alloc, place)),
    }
}

// The comparison of a variable with a number.
#[tactic(auto, unfolding(crate::specs::Properties::var_form))]
fn var_form(
    alloc: Global,
    names: &DesignNames<'_>,
    place: Place<'_>,
    parts: &[Value],
) -> Result<Form, ScenarioFault>
    ensures { Shows formula_of (var_form names.now (place_text place.entry) (map view parts.now)) result }
{
    let [path, name, op, value] = parts else {
        return Err(wrong_kind(alloc, place));
    };
    let path = text(alloc, place, path)?;
    let name = text(alloc, place, name)?;
    let Some(op) = compare_in(op) else {
        return Err(wrong_kind(alloc, place));
    };
    if !is_whole(value) {
        return Err(wrong_kind(alloc, place));
    }
    let node = names.node(alloc, place, path)?;
    let variable = variable(alloc, names, place, node, name)?;
    let number = number(alloc, place, value)?;
    Ok(Form::Var {
        node,
        variable,
        op,
        number,
    })
}

// The comparison operator with this name.
fn compare_in(value: &Value) -> Option<Compare>
    ensures { result ≡ option_and_then compare_of (as_str (view value.now)) }
{
    match value.as_str() {
        Some(word) => compare_of(word),
        None => None,
    }
}

// Whether a component is halted.
#[tactic(auto, unfolding(crate::specs::Properties::halted_form))]
fn halted_form(
    alloc: Global,
    names: &DesignNames<'_>,
    place: Place<'_>,
    parts: &[Value],
) -> Result<Form, ScenarioFault>
    ensures { Shows formula_of (halted_form names.now (place_text place.entry) (map view parts.now)) result }
{
    let [path] = parts else {
        return Err(wrong_kind(alloc, place));
    };
    let path = text(alloc, place, path)?;
    let node = names.node(alloc, place, path)?;
    Ok(Form::Halted(node))
}

// A formula with one subformula.
fn of_one(alloc: Global, role: FormulaWord, part: Form) -> Result<Form, ScenarioFault>
    ensures ok { IfOk result (λ f. formula_of f ≡ of_one role (formula_of part)) }
    ensures err { IfErr result (λ fault. fault ≡ ScenarioFault.Memory) }
{
    let part = Box::new(alloc, part)?;
    Ok(match role {
        FormulaWord::Previous => Form::Previous(part),
        FormulaWord::Once => Form::Once(part),
        FormulaWord::Historically => Form::Historically(part),
        _ => Form::Not(part),
    })
}

// A formula with two subformulas.
fn of_two(alloc: Global, role: FormulaWord, left: Form, right: Form) -> Result<Form, ScenarioFault>
    ensures ok { IfOk result (λ f. formula_of f ≡ of_two role (formula_of left) (formula_of right)) }
    ensures err { IfErr result (λ fault. fault ≡ ScenarioFault.Memory) }
{
    let left = Box::new(alloc, left)?;
    let right = Box::new(alloc, right)?;
    Ok(match role {
        FormulaWord::Or => Form::Or(left, right),
        FormulaWord::Since => Form::Since(left, right),
        _ => Form::And(left, right),
    })
}

#[cycle(formula)]
fn one_part(
    alloc: Global,
    names: &DesignNames<'_>,
    place: Place<'_>,
    role: FormulaWord,
    levels: u32,
    parts: &[Value],
) -> Result<Form, ScenarioFault>
    ensures { Shows formula_of (one_part (formula_in levels names.now (place_text place.entry)) (place_text place.entry)
        role (map view parts.now)) result }
{
    let [part] = parts else {
        return Err(wrong_kind(alloc, place));
    };
    let part = formula_in(alloc, names, place, levels, part)?;
    of_one(alloc, role, part)
}

#[cycle(formula)]
fn two_parts(
    alloc: Global,
    names: &DesignNames<'_>,
    place: Place<'_>,
    role: FormulaWord,
    levels: u32,
    parts: &[Value],
) -> Result<Form, ScenarioFault>
    ensures { Shows formula_of (two_parts (formula_in levels names.now (place_text place.entry))
        (place_text place.entry) role (map view parts.now)) result }
{
    let [left, right] = parts else {
        return Err(wrong_kind(alloc, place));
    };
    let left = formula_in(alloc, names, place, levels, left)?;
    let right = formula_in(alloc, names, place, levels, right)?;
    of_two(alloc, role, left, right)
}

/// Returns the formula of a value with at most `levels` levels. Errors: the first fault of the value.
#[tactic(auto, unfolding(crate::specs::Properties::formula_in))]
#[cycle(formula)]
pub fn formula_in(
    alloc: Global,
    names: &DesignNames<'_>,
    place: Place<'_>,
    levels: u32,
    value: &Value,
) -> Result<Form, ScenarioFault>
    ensures { Shows formula_of (formula_in levels names.now (place_text place.entry) (view value.now)) result }
{
    if levels == 0 {
        return Err(out_of_range(alloc, place));
    }
    let values = elements(alloc, place, value)?;
    let Some(role) = role_in(values) else {
        return Err(wrong_kind(alloc, place));
    };
    let parts = rest_of(values);
    match role {
        FormulaWord::Var => var_form(alloc, names, place, parts),
        FormulaWord::Halted => halted_form(alloc, names, place, parts),
        FormulaWord::And => two_parts(alloc, names, place, FormulaWord::And, levels - 1, parts),
        FormulaWord::Or => two_parts(alloc, names, place, FormulaWord::Or, levels - 1, parts),
        FormulaWord::Since => two_parts(alloc, names, place, FormulaWord::Since, levels - 1, parts),
        FormulaWord::Not => one_part(alloc, names, place, FormulaWord::Not, levels - 1, parts),
        FormulaWord::Previous => one_part(
            alloc,
            names,
            place,
            FormulaWord::Previous,
            levels - 1,
            parts,
        ),
        FormulaWord::Once => one_part(alloc, names, place, FormulaWord::Once, levels - 1, parts),
        FormulaWord::Historically => one_part(
            alloc,
            names,
            place,
            FormulaWord::Historically,
            levels - 1,
            parts,
        ),
    }
}
