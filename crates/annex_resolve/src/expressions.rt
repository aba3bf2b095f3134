//! Expressions: their types, and the trees in which names are numbers.
ghost use Rattle.std.specs.Prelude.{◌≡◌, ◌++◌, IfOk, OnOk, Some, option_map, option_copied};
ghost use Rattle.pals_base.specs.declared.behaviour.Kind.TheVariants.{Integer, Boolean};
ghost use Rattle.pals_base.specs.ExpressionAndActionTrees.{Literal, Chain, Then, NoMore};
ghost use Rattle.pals_base.specs.proof.TreeViews.{tree_of, operands_along};
ghost use Rattle.aadl_tree.specs.Expressions.{named};
ghost use Rattle.aadl_tree.specs.proof.PlaceMaps.{kept_place};
ghost use Rattle.aadl_tree.specs.proof.NameViews.{identifier_view};
ghost use Rattle.aadl_tree.specs.proof.ExpressionViews.{leading_view, primary_view, factor_view, factors_view};
ghost use Rattle.aadl_tree.specs.proof.ExpressionViews.{term_view, terms_view, sum_view, relation_view, relations_view};
ghost use Rattle.aadl_tree.specs.proof.ExpressionViews.{expression_view};
ghost use Rattle.annex_resolve.specs.NameMeanings.{kind_of, read_of};
ghost use Rattle.annex_resolve.specs.ExpressionTypesAndFindings.{fits, misfit, read_kind, is_equality, sides_misfit};
ghost use Rattle.annex_resolve.specs.ExpressionTypesAndFindings.{primary_kind, factor_kind, term_kind, total_kind};
ghost use Rattle.annex_resolve.specs.ExpressionTypesAndFindings.{relation_kind, expression_kind, primary_types};
ghost use Rattle.annex_resolve.specs.ExpressionTypesAndFindings.{factor_types, term_types, factors_types, sum_types};
ghost use Rattle.annex_resolve.specs.ExpressionTypesAndFindings.{terms_types, relation_types, expression_types};
ghost use Rattle.annex_resolve.specs.ExpressionTypesAndFindings.{relations_types, whole_types};
ghost use Rattle.annex_resolve.specs.ResolvedTrees.{multiply_op, sign_op, relation_op, logic_op, chained, signed_by};
ghost use Rattle.annex_resolve.specs.ResolvedTrees.{truth_of, primary_of, factor_of, term_of, factors_of, sum_of};
ghost use Rattle.annex_resolve.specs.ResolvedTrees.{terms_of, relation_of, expression_of, relations_of};
ghost use Rattle.annex_resolve.specs.proof.ResolutionResults.{Resolves, ResolvesOperands};

mod operators;

use crate::scope::{DeclaredName, Meaning, Scope};
use crate::violation::{BAD_TYPE, Violation, add_if};
use aadl_tree::{
    Expression, Factor, Identifier, LeadingSign, LogicOperator, MultiplyOperator, Primary,
    Relation, RelationOperator, Sign, Sum, Term, push_compact,
};
use operators::{is_equality, logic_op, multiply_op, relation_op, sign_op};
use pals_base::{Expr, ItemList, Kind, NoMemory, Operand};
use std::alloc::Global;

/// An expression with resolved names, and its type: `None` if it is neither Integer nor Boolean.
#[derive(Drop)]
pub struct Typed {
    pub expr: Expr,
    pub kind: Option<Kind>,
}

/// Returns whether a value of a type can be used as a value of the expected type. `None` is a type other than
/// Integer and Boolean; it fits everywhere.
pub fn fits(given: Option<Kind>, wanted: Option<Kind>) -> bool
    ensures { result ≡ fits given wanted }
{
    match (given, wanted) {
        (Some(given), Some(wanted)) => given == wanted,
        _ => true,
    }
}

/// Appends a violation if a value does not have the expected type. Errors: out of memory.
pub fn expect(
    alloc: Global,
    found: &mut ItemList<Violation>,
    at: usize,
    wanted: Option<Kind>,
    given: Option<Kind>,
) -> Result<(), NoMemory>
    ensures { OnOk result (found.new ≡ found.old ++ misfit at wanted given) }
{
    add_if(alloc, found, !fits(given, wanted), at, BAD_TYPE)
}

// Appends the violations of both sides of a comparison.
fn expect_sides(
    alloc: Global,
    found: &mut ItemList<Violation>,
    operator: RelationOperator,
    places: (usize, usize),
    left: Option<Kind>,
    right: Option<Kind>,
) -> Result<(), NoMemory>
    ensures { OnOk result (found.new ≡ found.old ++ sides_misfit operator places.0 places.1 left right) }
{
    if is_equality(operator) {
        return expect(alloc, found, places.1, left, right);
    }
    expect(alloc, found, places.0, Some(Kind::Integer), left)?;
    expect(alloc, found, places.1, Some(Kind::Integer), right)
}

// The type of a declared name.
pub(crate) fn kind_of(entry: Option<&DeclaredName>) -> Option<Kind>
    ensures { result ≡ kind_of (option_copied entry.entry) }
{
    match entry {
        None => None,
        Some(entry) => entry.kind,
    }
}

// The type of a read; whether a port is fresh is a Boolean.
fn read_kind(entry: Option<&DeclaredName>, fresh: bool) -> Option<Kind>
    ensures { result ≡ read_kind fresh (option_copied entry.entry) }
{
    if fresh {
        return Some(Kind::Boolean);
    }
    kind_of(entry)
}

// The expression that reads a name, if its meaning can be read.
fn read_of(entry: Option<&DeclaredName>, fresh: bool) -> Option<Expr>
    ensures { option_map tree_of result ≡ read_of fresh (option_copied entry.entry) }
{
    match (entry?.meaning, fresh) {
        (Meaning::InPort(number), false) => Some(Expr::Port(number)),
        (Meaning::InPort(number), true) => Some(Expr::Fresh(number)),
        (Meaning::Variable(number), false) => Some(Expr::Variable(number)),
        (Meaning::LoopVariable(number), false) => Some(Expr::Variable(number)),
        _ => None,
    }
}

// A first operand and the operands after it; a first operand without others is itself the result.
fn chained(alloc: Global, first: Expr, rest: Vec<Operand>) -> Result<Expr, NoMemory>
    ensures { IfOk result (λ expr. tree_of expr ≡ chained (tree_of first) (operands_along rest.items)) }
{
    if rest.is_empty() {
        return Ok(first);
    }
    let first = Box::new(alloc, first)?;
    Ok(Expr::Chain { first, rest })
}

// An operand with an optional sign before it.
fn signed(alloc: Global, sign: Option<LeadingSign>, operand: Expr) -> Result<Expr, NoMemory>
    ensures { IfOk result (λ expr. tree_of expr
        ≡ signed_by (option_map (leading_view kept_place) sign) (tree_of operand)) }
{
    match sign {
        None => Ok(operand),
        Some(leading) => match leading.sign {
            Sign::Plus => Ok(operand),
            Sign::Minus => Ok(Expr::Neg(Box::new(alloc, operand)?)),
        },
    }
}

// A number.
fn literal(value: i64) -> Typed
    ensures tree { tree_of result.expr ≡ Literal value }
    ensures kind { result.kind ≡ Some Integer }
{
    Typed {
        expr: Expr::Literal(value),
        kind: Some(Kind::Integer),
    }
}

// A Boolean literal, which behaviours represent as 1 or 0.
fn truth_literal(value: bool) -> Typed
    ensures tree { tree_of result.expr ≡ Literal (truth_of value) }
    ensures kind { result.kind ≡ Some Boolean }
{
    Typed {
        expr: Expr::Literal(if value { 1 } else { 0 }),
        kind: Some(Kind::Boolean),
    }
}

/// Resolves a whole expression with an expected type, and appends its violations. Errors: out of memory.
pub fn resolve_whole(
    alloc: Global,
    scope: &Scope,
    wanted: Option<Kind>,
    expression: &Expression,
    found: &mut ItemList<Violation>,
) -> Result<Expr, NoMemory>
    ensures tree { IfOk result (λ expr. tree_of expr
        ≡ expression_of scope.now (expression_view kept_place expression.now)) }
    ensures found { OnOk result (found.new
        ≡ found.old ++ whole_types scope.now wanted (expression_view kept_place expression.now)) }
{
    let typed = resolve_expression(alloc, scope, expression, found)?;
    expect(alloc, found, expression.at(), wanted, typed.kind)?;
    Ok(typed.expr)
}

// The recursion is as deep as the expression.
#[cycle(expression)]
fn resolve_expression(
    alloc: Global,
    scope: &Scope,
    expression: &Expression,
    found: &mut ItemList<Violation>,
) -> Result<Typed, NoMemory>
    ensures { IfOk result (λ typed. let x = expression_view kept_place expression.now in
        Resolves (expression_of scope.now x) (expression_kind scope.now x) (expression_types scope.now x) typed
        found.old found.new) }
{
    let first = resolve_relation(alloc, scope, &expression.first, found)?;
    if expression.rest.is_empty() {
        return Ok(first);
    }
    expect(
        alloc,
        found,
        expression.first.at(),
        Some(Kind::Boolean),
        first.kind,
    )?;
    let rest = resolve_relations(alloc, scope, &expression.rest, found)?;
    Ok(Typed {
        expr: chained(alloc, first.expr, rest)?,
        kind: Some(Kind::Boolean),
    })
}

#[cycle(expression)]
fn resolve_relations(
    alloc: Global,
    scope: &Scope,
    relations: &[(LogicOperator, Relation)],
    found: &mut ItemList<Violation>,
) -> Result<Vec<Operand>, NoMemory>
    ensures { IfOk result (λ operands. let xs = relations_view kept_place relations.now in
        ResolvesOperands (relations_of scope.now xs) (relations_types scope.now xs) operands.items found.old
        found.new) }
{
    let mut operands = Vec::new(alloc);
    for (operator, relation) in relations {
        let typed = resolve_relation(alloc, scope, relation, found)?;
        expect(alloc, found, relation.at(), Some(Kind::Boolean), typed.kind)?;
        let operand = Operand {
            op: logic_op(*operator),
            right: typed.expr,
        };
        push_compact(&mut operands, operand)?;
    }
    Ok(operands)
}

#[cycle(expression)]
fn resolve_relation(
    alloc: Global,
    scope: &Scope,
    relation: &Relation,
    found: &mut ItemList<Violation>,
) -> Result<Typed, NoMemory>
    ensures { IfOk result (λ typed. let x = relation_view kept_place relation.now in
        Resolves (relation_of scope.now x) (relation_kind scope.now x) (relation_types scope.now x) typed found.old
        found.new) }
{
    let left = resolve_sum(alloc, scope, &relation.left, found)?;
    match &relation.right {
        None => Ok(left),
        Some(other) => {
            let (operator, sum) = (other.0, &other.1);
            let right = resolve_sum(alloc, scope, sum, found)?;
            let places = (relation.left.at(), sum.at());
            expect_sides(alloc, found, operator, places, left.kind, right.kind)?;
            compared(alloc, left.expr, operator, right.expr)
        }
    }
}

// Two operands with a comparison between them.
fn compared(
    alloc: Global,
    left: Expr,
    operator: RelationOperator,
    right: Expr,
) -> Result<Typed, NoMemory>
    ensures tree { IfOk result (λ typed. tree_of typed.expr
        ≡ Chain (tree_of left) (Then (relation_op operator) (tree_of right) NoMore)) }
    ensures kind { IfOk result (λ typed. typed.kind ≡ Some Boolean) }
{
    let op = relation_op(operator);
    let rest = vec![in alloc; Operand { op, right }]?;
    Ok(Typed {
        expr: chained(alloc, left, rest)?,
        kind: Some(Kind::Boolean),
    })
}

#[cycle(expression)]
fn resolve_sum(
    alloc: Global,
    scope: &Scope,
    sum: &Sum,
    found: &mut ItemList<Violation>,
) -> Result<Typed, NoMemory>
    ensures { IfOk result (λ typed. let x = sum_view kept_place sum.now in
        Resolves (sum_of scope.now x) (total_kind scope.now x) (sum_types scope.now x) typed found.old found.new) }
{
    let first = resolve_term(alloc, scope, &sum.first, found)?;
    if sum.sign.is_none() && sum.rest.is_empty() {
        return Ok(first);
    }
    expect(
        alloc,
        found,
        sum.first.at(),
        Some(Kind::Integer),
        first.kind,
    )?;
    let rest = resolve_terms(alloc, scope, &sum.rest, found)?;
    let first = signed(alloc, sum.sign, first.expr)?;
    Ok(Typed {
        expr: chained(alloc, first, rest)?,
        kind: Some(Kind::Integer),
    })
}

#[cycle(expression)]
fn resolve_terms(
    alloc: Global,
    scope: &Scope,
    terms: &[(Sign, Term)],
    found: &mut ItemList<Violation>,
) -> Result<Vec<Operand>, NoMemory>
    ensures { IfOk result (λ operands. let xs = terms_view kept_place terms.now in
        ResolvesOperands (terms_of scope.now xs) (terms_types scope.now xs) operands.items found.old found.new) }
{
    let mut operands = Vec::new(alloc);
    for (sign, term) in terms {
        let typed = resolve_term(alloc, scope, term, found)?;
        expect(alloc, found, term.at(), Some(Kind::Integer), typed.kind)?;
        let operand = Operand {
            op: sign_op(*sign),
            right: typed.expr,
        };
        push_compact(&mut operands, operand)?;
    }
    Ok(operands)
}

#[cycle(expression)]
fn resolve_term(
    alloc: Global,
    scope: &Scope,
    term: &Term,
    found: &mut ItemList<Violation>,
) -> Result<Typed, NoMemory>
    ensures { IfOk result (λ typed. let x = term_view kept_place term.now in
        Resolves (term_of scope.now x) (term_kind scope.now x) (term_types scope.now x) typed found.old found.new) }
{
    let first = resolve_factor(alloc, scope, &term.first, found)?;
    if term.rest.is_empty() {
        return Ok(first);
    }
    expect(
        alloc,
        found,
        term.first.at(),
        Some(Kind::Integer),
        first.kind,
    )?;
    let rest = resolve_factors(alloc, scope, &term.rest, found)?;
    Ok(Typed {
        expr: chained(alloc, first.expr, rest)?,
        kind: Some(Kind::Integer),
    })
}

#[cycle(expression)]
fn resolve_factors(
    alloc: Global,
    scope: &Scope,
    factors: &[(MultiplyOperator, Factor)],
    found: &mut ItemList<Violation>,
) -> Result<Vec<Operand>, NoMemory>
    ensures { IfOk result (λ operands. let xs = factors_view kept_place factors.now in
        ResolvesOperands (factors_of scope.now xs) (factors_types scope.now xs) operands.items found.old found.new) }
{
    let mut operands = Vec::new(alloc);
    for (operator, factor) in factors {
        let typed = resolve_factor(alloc, scope, factor, found)?;
        expect(alloc, found, factor.at(), Some(Kind::Integer), typed.kind)?;
        let operand = Operand {
            op: multiply_op(*operator),
            right: typed.expr,
        };
        push_compact(&mut operands, operand)?;
    }
    Ok(operands)
}

#[cycle(expression)]
fn resolve_factor(
    alloc: Global,
    scope: &Scope,
    factor: &Factor,
    found: &mut ItemList<Violation>,
) -> Result<Typed, NoMemory>
    ensures { IfOk result (λ typed. let x = factor_view kept_place factor.now in
        Resolves (factor_of scope.now x) (factor_kind scope.now x) (factor_types scope.now x) typed found.old
        found.new) }
{
    match factor {
        Factor::Abs { at: _, operand } => {
            let typed = resolve_primary(alloc, scope, operand, found)?;
            expect(alloc, found, operand.at(), Some(Kind::Integer), typed.kind)?;
            let expr = Expr::Abs(Box::new(alloc, typed.expr)?);
            Ok(Typed {
                expr,
                kind: Some(Kind::Integer),
            })
        }
        Factor::Not { at: _, operand } => {
            let typed = resolve_primary(alloc, scope, operand, found)?;
            expect(alloc, found, operand.at(), Some(Kind::Boolean), typed.kind)?;
            let expr = Expr::Not(Box::new(alloc, typed.expr)?);
            Ok(Typed {
                expr,
                kind: Some(Kind::Boolean),
            })
        }
        Factor::Plain(operand) => resolve_primary(alloc, scope, operand, found),
    }
}

#[cycle(expression)]
fn resolve_primary(
    alloc: Global,
    scope: &Scope,
    primary: &Primary,
    found: &mut ItemList<Violation>,
) -> Result<Typed, NoMemory>
    ensures { IfOk result (λ typed. let x = primary_view kept_place primary.now in
        Resolves (primary_of scope.now x) (primary_kind scope.now x) (primary_types scope.now x) typed found.old
        found.new) }
{
    match primary {
        Primary::Whole { at: _, value } => Ok(literal(*value)),
        Primary::Truth { at: _, value } => Ok(truth_literal(*value)),
        Primary::Named { name, fresh } => resolve_name(alloc, scope, name, *fresh, found),
        Primary::Group { at: _, inner } => resolve_expression(alloc, scope, inner, found),
    }
}

// A variable or a port, or whether a port is fresh.
fn resolve_name(
    alloc: Global,
    scope: &Scope,
    name: &Identifier,
    fresh: bool,
    found: &mut ItemList<Violation>,
) -> Result<Typed, NoMemory>
    ensures { IfOk result (λ typed. let x = named (identifier_view kept_place name.now) fresh in
        Resolves (primary_of scope.now x) (primary_kind scope.now x) (primary_types scope.now x) typed found.old
        found.new) }
{
    let entry = scope.find(name.spelling.as_str());
    let kind = read_kind(entry, fresh);
    match read_of(entry, fresh) {
        Some(expr) => Ok(Typed { expr, kind }),
        None => {
            found.push(Violation::bare(alloc, name.at, BAD_TYPE))?;
            let expr = Expr::Literal(0);
            Ok(Typed { expr, kind })
        }
    }
}
