//! Annexes, and the declarations of a behaviour.

use crate::actions::Block;
use crate::expressions::Expression;
use crate::names::{Identifier, Identifiers, Reference};
use crate::values::Association;

/// `"annex" id ( unread | "{**" behaviour "**}" ) ";"`
pub struct Annex {
    /// The byte offset of `annex`.
    pub at: usize,
    pub language: Identifier,
    pub content: AnnexContent,
}

impl Drop for Annex {
    fn drop(self) {
        let Annex {
            at: _,
            language: _,
            content: _,
        } = self;
    }
}

/// The content of an annex.
pub enum AnnexContent {
    /// The bytes of an annex of another language, from its `{**` to its `**}`.
    Unread(Vec<u8>),
    /// A behaviour.
    Behaviour(AnnexTree),
}

impl Drop for AnnexContent {
    fn drop(self) {
        match self {
            AnnexContent::Unread(_) => {}
            AnnexContent::Behaviour(_) => {}
        }
    }
}

/// A behaviour: `[ "variables" { variable } ] [ "states" { state } ] [ "transitions" { transition } ]`.
pub struct AnnexTree {
    pub variables: Option<Vec<VariableDeclaration>>,
    pub states: Option<Vec<StateDeclaration>>,
    pub transitions: Option<Vec<Transition>>,
}

impl Drop for AnnexTree {
    fn drop(self) {
        let AnnexTree {
            variables: _,
            states: _,
            transitions: _,
        } = self;
    }
}

/// `id { "," id } ":" reference [ properties ] ";"`
pub struct VariableDeclaration {
    pub names: Identifiers,
    pub data_type: Reference,
    pub properties: Vec<Association>,
}

impl Drop for VariableDeclaration {
    fn drop(self) {
        let VariableDeclaration {
            names: _,
            data_type: _,
            properties: _,
        } = self;
    }
}

/// `id { "," id } ":" [ "initial" ] [ "complete" ] "state" ";"`
pub struct StateDeclaration {
    pub names: Identifiers,
    pub initial: bool,
    pub complete: bool,
}

impl Drop for StateDeclaration {
    fn drop(self) {
        let StateDeclaration {
            names: _,
            initial: _,
            complete: _,
        } = self;
    }
}

/// `[ id ":" ] id "-[" [ guard ] "]->" id [ block ] ";"`
pub struct Transition {
    /// The label, which has no meaning.
    pub label: Option<Identifier>,
    pub source: Identifier,
    pub guard: Option<Guard>,
    pub target: Identifier,
    pub effect: Option<Block>,
}

impl Drop for Transition {
    fn drop(self) {
        let Transition {
            label: _,
            source: _,
            guard: _,
            target: _,
            effect: _,
        } = self;
    }
}

/// The condition of a transition.
pub enum Guard {
    /// `"on" "dispatch"`
    Dispatch,
    /// `"otherwise"`
    Otherwise,
    /// The transition is enabled if the expression is true.
    When(Expression),
}

impl Drop for Guard {
    fn drop(self) {
        match self {
            Guard::Dispatch => {}
            Guard::Otherwise => {}
            Guard::When(_) => {}
        }
    }
}
