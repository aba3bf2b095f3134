//! Subformulas of properties, over the rounds since the first.
use pals_base::NodeNo;

/// How a variable is compared with a number.
#[derive(Clone, Copy)]
pub enum Compare {
    Eq,
    Ne,
    Lt,
    Le,
    Gt,
    Ge,
}

/// A formula over the frames after each round. Contracts see it as a plain tree (`formula_of`).
#[derive(Drop)]
pub enum Form {
    /// A comparison of a variable of a component with a number. False is 0, and true is 1.
    Var {
        node: NodeNo,
        variable: u32,
        op: Compare,
        number: i64,
    },
    /// A trap has halted the component.
    Halted(NodeNo),
    Not(Box<Form>),
    And(Box<Form>, Box<Form>),
    Or(Box<Form>, Box<Form>),
    /// The formula was true a round before; false in the first round.
    Previous(Box<Form>),
    /// The formula was true in some round up to this one.
    Once(Box<Form>),
    /// The formula was true in all rounds up to this one.
    Historically(Box<Form>),
    /// The second formula was true in some round, and the first in all rounds after it.
    Since(Box<Form>, Box<Form>),
}
