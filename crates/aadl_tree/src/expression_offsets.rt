//! The positions of expressions: the byte offset of the first token.
ghost use Rattle.std.specs.Prelude.{◌≡◌};
ghost use Rattle.aadl_tree.specs.proof.ExpressionViews.{primary_view, factor_view, term_view, sum_view, relation_view};
ghost use Rattle.aadl_tree.specs.proof.ExpressionViews.{expression_view};
ghost use Rattle.aadl_tree.specs.ExpressionOffsets.{primary_at, factor_at, term_at, sum_at, relation_at, expression_at};
ghost use Rattle.aadl_tree.specs.proof.PlaceMaps.{kept_place};

use crate::expressions::{Expression, Factor, Primary, Relation, Sum, Term};

impl Expression {
    /// Returns the byte offset of its first token.
    pub fn at(&self) -> usize
        ensures { result ≡ expression_at (expression_view kept_place self.now) }
    {
        self.first.at()
    }
}

impl Relation {
    /// Returns the byte offset of its first token.
    pub fn at(&self) -> usize
        ensures { result ≡ relation_at (relation_view kept_place self.now) }
    {
        self.left.at()
    }
}

impl Sum {
    /// Returns the byte offset of its first token.
    pub fn at(&self) -> usize
        ensures { result ≡ sum_at (sum_view kept_place self.now) }
    {
        match &self.sign {
            Some(sign) => sign.at as usize,
            None => self.first.at(),
        }
    }
}

impl Term {
    /// Returns the byte offset of its first token.
    pub fn at(&self) -> usize
        ensures { result ≡ term_at (term_view kept_place self.now) }
    {
        self.first.at()
    }
}

impl Factor {
    /// Returns the byte offset of its first token.
    pub fn at(&self) -> usize
        ensures { result ≡ factor_at (factor_view kept_place self.now) }
    {
        match self {
            Factor::Abs { at, .. } | Factor::Not { at, .. } => *at,
            Factor::Plain(operand) => operand.at(),
        }
    }
}

impl Primary {
    /// Returns the byte offset of its first token.
    pub fn at(&self) -> usize
        ensures { result ≡ primary_at (primary_view kept_place self.now) }
    {
        match self {
            Primary::Whole { at, .. } | Primary::Truth { at, .. } | Primary::Group { at, .. } =>
                *at,
            Primary::Named { name, .. } => name.at,
        }
    }
}
