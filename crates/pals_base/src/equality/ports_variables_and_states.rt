//! Equality of declarations.

use super::Same;
use crate::behaviour::{PortDecl, StateDecl, VarDecl};

impl Same for PortDecl {
    fn same(&self, other: &PortDecl) -> bool {
        self.name.same(&other.name) && self.kind == other.kind
    }
}

impl Same for VarDecl {
    fn same(&self, other: &VarDecl) -> bool {
        self.name.same(&other.name) && self.kind == other.kind && self.first == other.first
    }
}

impl Same for StateDecl {
    fn same(&self, other: &StateDecl) -> bool {
        self.name.same(&other.name) && self.complete == other.complete
    }
}
