//! Whether two expressions have the same meaning.
ghost use Rattle.std.specs.Prelude.{◌≡◌, ◌↔◌, IsTrue};
ghost use Rattle.aadl_tree.specs.proof.ExpressionViews.{primary_view, factor_view, factors_view, term_view, terms_view};
ghost use Rattle.aadl_tree.specs.proof.ExpressionViews.{sum_view, relation_view, relations_view, expression_view};
ghost use Rattle.aadl_tree.specs.proof.PlaceMaps.{no_place};

use super::lists_and_options::same_option;
use super::same_meaning::Same;
use crate::expressions::{
    Expression, Factor, LeadingSign, LogicOperator, MultiplyOperator, Primary, Relation, Sign, Sum,
    Term,
};

impl Same for LeadingSign {
    ghost use Rattle.aadl_tree.specs.Expressions.{LeadingSign};
    ghost use Rattle.aadl_tree.specs.proof.ExpressionViews.{leading_view};
    ghost use Rattle.aadl_tree.specs.proof.PlaceMaps.{no_place};

    ghost Meaning = { LeadingSign (Unit {0}) };

    ghost meaning = { leading_view no_place };

    fn same(&self, other: &LeadingSign) -> bool {
        self.sign == other.sign
    }
}

/// Returns whether two expressions have the same meaning. The recursion is as deep as the trees.
#[cycle(same_expression)]
pub fn same_expression(left: &Expression, right: &Expression) -> bool
    ensures { IsTrue result ↔ (expression_view no_place left.now ≡ expression_view no_place right.now) }
{
    same_relation(&left.first, &right.first) && same_relations(&left.rest, &right.rest)
}

#[cycle(same_expression)]
fn same_relations(left: &[(LogicOperator, Relation)], right: &[(LogicOperator, Relation)]) -> bool
    ensures { IsTrue result ↔ (relations_view no_place left.now ≡ relations_view no_place right.now) }
{
    if left.len() != right.len() {
        return false;
    }
    for at in 0..left.len() {
        if left[at].0 != right[at].0 || !same_relation(&left[at].1, &right[at].1) {
            return false;
        }
    }
    true
}

#[cycle(same_expression)]
fn same_relation(left: &Relation, right: &Relation) -> bool
    ensures { IsTrue result ↔ (relation_view no_place left.now ≡ relation_view no_place right.now) }
{
    if !same_sum(&left.left, &right.left) {
        return false;
    }
    match (&left.right, &right.right) {
        (None, None) => true,
        (Some(left), Some(right)) => left.0 == right.0 && same_sum(&left.1, &right.1),
        _ => false,
    }
}

#[cycle(same_expression)]
fn same_sum(left: &Sum, right: &Sum) -> bool
    ensures { IsTrue result ↔ (sum_view no_place left.now ≡ sum_view no_place right.now) }
{
    same_option(&left.sign, &right.sign)
        && same_term(&left.first, &right.first)
        && same_terms(&left.rest, &right.rest)
}

#[cycle(same_expression)]
fn same_terms(left: &[(Sign, Term)], right: &[(Sign, Term)]) -> bool
    ensures { IsTrue result ↔ (terms_view no_place left.now ≡ terms_view no_place right.now) }
{
    if left.len() != right.len() {
        return false;
    }
    for at in 0..left.len() {
        if left[at].0 != right[at].0 || !same_term(&left[at].1, &right[at].1) {
            return false;
        }
    }
    true
}

#[cycle(same_expression)]
fn same_term(left: &Term, right: &Term) -> bool
    ensures { IsTrue result ↔ (term_view no_place left.now ≡ term_view no_place right.now) }
{
    same_factor(&left.first, &right.first) && same_factors(&left.rest, &right.rest)
}

#[cycle(same_expression)]
fn same_factors(left: &[(MultiplyOperator, Factor)], right: &[(MultiplyOperator, Factor)]) -> bool
    ensures { IsTrue result ↔ (factors_view no_place left.now ≡ factors_view no_place right.now) }
{
    if left.len() != right.len() {
        return false;
    }
    for at in 0..left.len() {
        if left[at].0 != right[at].0 || !same_factor(&left[at].1, &right[at].1) {
            return false;
        }
    }
    true
}

#[cycle(same_expression)]
fn same_factor(left: &Factor, right: &Factor) -> bool
    ensures { IsTrue result ↔ (factor_view no_place left.now ≡ factor_view no_place right.now) }
{
    match (left, right) {
        (Factor::Abs { operand, .. }, Factor::Abs { operand: other, .. }) => {
            same_primary(operand, other)
        }
        (Factor::Not { operand, .. }, Factor::Not { operand: other, .. }) => {
            same_primary(operand, other)
        }
        (Factor::Plain(operand), Factor::Plain(other)) => same_primary(operand, other),
        _ => false,
    }
}

#[cycle(same_expression)]
fn same_primary(left: &Primary, right: &Primary) -> bool
    ensures { IsTrue result ↔ (primary_view no_place left.now ≡ primary_view no_place right.now) }
{
    match (left, right) {
        (Primary::Whole { value, .. }, Primary::Whole { value: other, .. }) => *value == *other,
        (Primary::Truth { value, .. }, Primary::Truth { value: other, .. }) => *value == *other,
        (
            Primary::Named { name, fresh },
            Primary::Named {
                name: other_name,
                fresh: other_fresh,
            },
        ) => name.same(other_name) && *fresh == *other_fresh,
        (Primary::Group { inner, .. }, Primary::Group { inner: other, .. }) => {
            same_expression(inner, other)
        }
        _ => false,
    }
}
