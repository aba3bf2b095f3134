//! Whether two expressions have the same abstract tree.
ghost use Rattle.std.specs.Prelude.{◌≡◌, ◌↔◌, IsTrue};
ghost use Rattle.pals_base.specs.proof.TreeViews.{tree_of, operands_along};

use crate::behaviour::{Expr, Operand};

impl Expr {
    /// Returns whether another expression has the same tree. The recursion is as deep as the tree.
    #[cycle(same_expr)]
    pub fn same(&self, other: &Expr) -> bool
        ensures { IsTrue result ↔ (tree_of self.now ≡ tree_of other.now) }
    {
        match (self, other) {
            (Expr::Literal(left), Expr::Literal(right)) => *left == *right,
            (Expr::Variable(left), Expr::Variable(right)) => *left == *right,
            (Expr::Port(left), Expr::Port(right)) => *left == *right,
            (Expr::Fresh(left), Expr::Fresh(right)) => *left == *right,
            (Expr::Neg(left), Expr::Neg(right)) => left.same(right),
            (Expr::Abs(left), Expr::Abs(right)) => left.same(right),
            (Expr::Not(left), Expr::Not(right)) => left.same(right),
            (
                Expr::Chain { first, rest },
                Expr::Chain {
                    first: other_first,
                    rest: other_rest,
                },
            ) => first.same(other_first) && same_operands(rest, other_rest),
            _ => false,
        }
    }
}

// Whether two lists of later operands have the same trees.
#[cycle(same_expr)]
fn same_operands(left: &[Operand], right: &[Operand]) -> bool
    ensures { IsTrue result ↔ (operands_along left.now ≡ operands_along right.now) }
{
    if left.len() != right.len() {
        return false;
    }
    for at in 0..left.len() {
        if left[at].op != right[at].op || !left[at].right.same(&right[at].right) {
            return false;
        }
    }
    true
}
