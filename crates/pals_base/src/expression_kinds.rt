//! The types that an expression may have.
ghost use Rattle.std.specs.Prelude.{◌≡◌, option_copied};
ghost use Rattle.pals_base.specs.proof.TreeViews.{tree_of, operands_along};
ghost use Rattle.pals_base.specs.TypingRules.{may_be, only, allows, literal_kinds, port_kinds, variable_kinds};
ghost use Rattle.pals_base.specs.TypingRules.{operator_kinds};
ghost use Rattle.pals_base.specs.TypingRules.{kinds_of, kinds_along};

use crate::behaviour::{BehaviourParts, Expr, Kind, Op, Operand, PortDecl};

/// The possible types of a value. An ill-typed expression has none. A number that can also denote a Boolean has
/// both.
#[derive(Clone, Copy)]
pub struct Kinds {
    pub integer: bool,
    pub boolean: bool,
}

impl Kinds {
    fn new(integer: bool, boolean: bool) -> Kinds
        ensures { result ≡ may_be integer boolean }
    {
        Kinds { integer, boolean }
    }

    // Exactly one type.
    fn only(kind: Kind) -> Kinds
        ensures { result ≡ only kind }
    {
        match kind {
            Kind::Integer => Kinds::new(true, false),
            Kind::Boolean => Kinds::new(false, true),
        }
    }

    // The types of a literal: a number is an integer; 0 and 1 are also false and true.
    pub(crate) fn of_literal(value: i64) -> Kinds
        ensures { result ≡ literal_kinds value }
    {
        Kinds::new(true, value == 0 || value == 1)
    }

    // The type of a port, or no type if the port does not exist.
    fn of_port(port: Option<&PortDecl>) -> Kinds
        ensures { result ≡ port_kinds (option_copied port.entry) }
    {
        match port {
            None => Kinds::new(false, false),
            Some(port) => Kinds::only(port.kind),
        }
    }

    // Whether a value with these types can be used as a value of this type.
    pub(crate) fn allows(self, kind: Kind) -> bool
        ensures { result ≡ allows self kind }
    {
        match kind {
            Kind::Integer => self.integer,
            Kind::Boolean => self.boolean,
        }
    }

    // The types of the result of an operator.
    fn joined(self, op: Op, right: Kinds) -> Kinds
        ensures { result ≡ operator_kinds op self right }
    {
        let numbers = self.integer && right.integer;
        let truths = self.boolean && right.boolean;
        match op {
            Op::Add | Op::Sub | Op::Mul | Op::Quot | Op::Mod | Op::Rem => {
                Kinds::new(numbers, false)
            }
            Op::Eq | Op::Ne => Kinds::new(false, numbers || truths),
            Op::Lt | Op::Le | Op::Gt | Op::Ge => Kinds::new(false, numbers),
            Op::And | Op::Or | Op::Xor | Op::AndThen | Op::OrElse => Kinds::new(false, truths),
        }
    }
}

impl BehaviourParts {
    // The types of a variable that is visible within `loops` loops.
    fn variable_kinds(&self, loops: usize, variable: u32) -> Kinds
        ensures { result ≡ variable_kinds self.now loops variable }
    {
        match self.vars.get(variable as usize) {
            Some(declared) => Kinds::only(declared.kind),
            None => {
                let past = variable as usize - self.vars.len();
                Kinds::new(past < loops, false)
            }
        }
    }
}

impl Expr {
    /// Returns the types that the expression can have in a behaviour with these parts, within `loops` loops.
    /// The recursion is as deep as the tree.
    #[cycle(kinds_of_expr)]
    pub fn kinds(&self, parts: &BehaviourParts, loops: usize) -> Kinds
        ensures { result ≡ kinds_of (tree_of self.now) parts.now loops }
    {
        match self {
            Expr::Literal(value) => Kinds::of_literal(*value),
            Expr::Variable(variable) => parts.variable_kinds(loops, *variable),
            Expr::Port(port) => Kinds::of_port(parts.ins.get(*port as usize)),
            Expr::Fresh(port) => Kinds::new(false, (*port as usize) < parts.ins.len()),
            Expr::Neg(operand) => Kinds::new(operand.kinds(parts, loops).integer, false),
            Expr::Abs(operand) => Kinds::new(operand.kinds(parts, loops).integer, false),
            Expr::Not(operand) => Kinds::new(false, operand.kinds(parts, loops).boolean),
            Expr::Chain { first, rest } => {
                kinds_along(rest, parts, loops, first.kinds(parts, loops))
            }
        }
    }
}

// The types of a chain, from the types of its first operand.
#[cycle(kinds_of_expr)]
fn kinds_along(rest: &[Operand], parts: &BehaviourParts, loops: usize, first: Kinds) -> Kinds
    ensures { result ≡ kinds_along (operands_along rest.now) parts.now loops first }
{
    let mut left = first;
    for operand in rest {
        let right = operand.right.kinds(parts, loops);
        left = left.joined(operand.op, right);
    }
    left
}
