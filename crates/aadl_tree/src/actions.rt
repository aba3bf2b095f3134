//! Actions of behaviours.

use crate::expressions::Expression;
use crate::names::{Identifier, Reference};

/// An action of a transition.
#[cycle(action)]
pub enum Action {
    /// `id ":=" expression`
    Assign {
        target: Identifier,
        value: Expression,
    },
    /// `id "!" "(" expression ")"`
    Send {
        port: Identifier,
        value: Expression,
    },
    /// Executes the actions of the first true test.
    If(Box<Choice>),
    /// Executes the actions once for each number of a range.
    For(Box<Loop>),
}

impl Drop for Action {
    #[cycle(action_drop)]
    fn drop(self) {
        match self {
            Action::Assign {
                target: _,
                value: _,
            } => {}
            Action::Send { port: _, value: _ } => {}
            Action::If(_) => {}
            Action::For(_) => {}
        }
    }
}

/// Actions in sequence, separated by `;`.
#[cycle(action)]
pub struct Actions {
    pub first: Action,
    pub rest: Vec<Action>,
}

impl Drop for Actions {
    #[cycle(action_drop)]
    fn drop(self) {
        let Actions { first: _, rest: _ } = self;
    }
}

/// `"if" "(" expression ")" actions { "elsif" "(" expression ")" actions } [ "else" actions ] "end" "if"`
#[cycle(action)]
pub struct Choice {
    pub test: Expression,
    pub actions: Actions,
    pub elsifs: Vec<Elsif>,
    pub otherwise: Option<Box<Actions>>,
}

impl Drop for Choice {
    #[cycle(action_drop)]
    fn drop(self) {
        let Choice {
            test: _,
            actions: _,
            elsifs: _,
            otherwise: _,
        } = self;
    }
}

/// `"elsif" "(" expression ")" actions`
#[cycle(action)]
pub struct Elsif {
    pub test: Expression,
    pub actions: Actions,
}

impl Drop for Elsif {
    #[cycle(action_drop)]
    fn drop(self) {
        let Elsif {
            test: _,
            actions: _,
        } = self;
    }
}

/// `"for" "(" id ":" reference "in" bound ".." bound ")" block`
#[cycle(action)]
pub struct Loop {
    /// The byte offset of `for`.
    pub at: usize,
    pub variable: Identifier,
    pub data_type: Reference,
    pub low: Bound,
    pub high: Bound,
    pub body: Block,
}

impl Drop for Loop {
    #[cycle(action_drop)]
    fn drop(self) {
        let Loop {
            at: _,
            variable: _,
            data_type: _,
            low: _,
            high: _,
            body: _,
        } = self;
    }
}

/// `"{" [ actions ] "}"`
#[cycle(action)]
#[derive(Drop)]
pub struct Block {
    pub actions: Option<Box<Actions>>,
}

/// A bound of a loop's range: `[ "-" ] whole`.
#[derive(Clone, Copy, PartialEq)]
pub struct Bound {
    pub negative: bool,
    pub value: i64,
}
