//! Expressions of behaviours. Operators of one precedence level are in one list, from left to right.

use crate::names::Identifier;

/// `+` or `-`.
#[derive(Clone, Copy, PartialEq)]
pub enum Sign {
    Plus,
    Minus,
}

/// An operator between relations: a logical operator.
#[derive(Clone, Copy, PartialEq)]
pub enum LogicOperator {
    And,
    Or,
    Xor,
    AndThen,
    OrElse,
}

/// An operator between sums: a comparison.
#[derive(Clone, Copy, PartialEq)]
pub enum RelationOperator {
    Equal,
    NotEqual,
    Less,
    LessOrEqual,
    Greater,
    GreaterOrEqual,
}

/// An operator between factors: a multiplicative operator.
#[derive(Clone, Copy, PartialEq)]
pub enum MultiplyOperator {
    Times,
    Divide,
    Mod,
    Rem,
}

/// Relations separated by `and`, `or`, `xor`, `and then` or `or else`.
#[cycle(expression)]
pub struct Expression {
    pub first: Relation,
    pub rest: Vec<(LogicOperator, Relation)>,
}

impl Drop for Expression {
    #[cycle(expression_drop)]
    fn drop(self) {
        let Expression { first: _, rest: _ } = self;
    }
}

/// A sum, or a comparison of two sums.
#[cycle(expression)]
pub struct Relation {
    pub left: Sum,
    pub right: Option<Box<(RelationOperator, Sum)>>,
}

impl Drop for Relation {
    #[cycle(expression_drop)]
    fn drop(self) {
        let Relation { left: _, right: _ } = self;
    }
}

/// The sign before the first term of a sum. Its offset has 32 bits, so that it takes 8 bytes.
#[derive(Clone, Copy)]
pub struct LeadingSign {
    /// Its byte offset.
    pub at: u32,
    pub sign: Sign,
}

/// Terms separated by `+` or `-`. A sign at the front belongs to the first term.
#[cycle(expression)]
pub struct Sum {
    pub sign: Option<LeadingSign>,
    pub first: Term,
    pub rest: Vec<(Sign, Term)>,
}

impl Drop for Sum {
    #[cycle(expression_drop)]
    fn drop(self) {
        let Sum {
            sign: _,
            first: _,
            rest: _,
        } = self;
    }
}

/// Factors separated by `*`, `/`, `mod` or `rem`.
#[cycle(expression)]
pub struct Term {
    pub first: Factor,
    pub rest: Vec<(MultiplyOperator, Factor)>,
}

impl Drop for Term {
    #[cycle(expression_drop)]
    fn drop(self) {
        let Term { first: _, rest: _ } = self;
    }
}

/// An operand, optionally after `abs` or `not`; `at` is the byte offset of this keyword.
#[cycle(expression)]
pub enum Factor {
    Abs { at: usize, operand: Box<Primary> },
    Not { at: usize, operand: Box<Primary> },
    Plain(Primary),
}

impl Drop for Factor {
    #[cycle(expression_drop)]
    fn drop(self) {
        match self {
            Factor::Abs { at: _, operand: _ } => {}
            Factor::Not { at: _, operand: _ } => {}
            Factor::Plain(_) => {}
        }
    }
}

/// An operand; `at` is the byte offset of its first token.
#[cycle(expression)]
pub enum Primary {
    /// A whole number.
    Whole { at: usize, value: i64 },
    /// `true` or `false`.
    Truth { at: usize, value: bool },
    /// A variable or a port, or whether a port is fresh: `id [ "'" "fresh" ]`.
    Named { name: Identifier, fresh: bool },
    /// An expression in parentheses.
    Group { at: usize, inner: Box<Expression> },
}

impl Drop for Primary {
    #[cycle(expression_drop)]
    fn drop(self) {
        match self {
            Primary::Whole { at: _, value: _ } => {}
            Primary::Truth { at: _, value: _ } => {}
            Primary::Named { name: _, fresh: _ } => {}
            Primary::Group { at: _, inner: _ } => {}
        }
    }
}
