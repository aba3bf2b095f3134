//! Types, implementations, and their members.

use crate::annex::Annex;
use crate::names::{Identifier, Name, Reference};
use crate::values::Association;

/// The category of a component.
#[derive(Clone, Copy, PartialEq)]
pub enum Category {
    System,
    Process,
    Thread,
}

/// The direction of a port.
#[derive(Clone, Copy, PartialEq)]
pub enum Direction {
    In,
    Out,
}

/// `"with" name { "," name } ";"`
pub struct With {
    pub first: Name,
    pub rest: Vec<Name>,
}

impl Drop for With {
    fn drop(self) {
        let With { first: _, rest: _ } = self;
    }
}

/// A type or an implementation.
pub enum Declaration {
    Type(TypeDeclaration),
    Implementation(Implementation),
}

impl Drop for Declaration {
    fn drop(self) {
        match self {
            Declaration::Type(_) => {}
            Declaration::Implementation(_) => {}
        }
    }
}

/// `category id [ features ] [ properties ] { annex } "end" id ";"`
pub struct TypeDeclaration {
    /// The byte offset of the category.
    pub at: usize,
    pub category: Category,
    pub name: Identifier,
    pub features: Vec<Feature>,
    pub properties: Vec<Association>,
    pub annexes: Vec<Annex>,
    pub end_name: Identifier,
}

impl Drop for TypeDeclaration {
    fn drop(self) {
        let TypeDeclaration {
            at: _,
            category: _,
            name: _,
            features: _,
            properties: _,
            annexes: _,
            end_name: _,
        } = self;
    }
}

/// `category "implementation" id "." id [ subcomponents ] [ connections ] [ properties ] { annex }
/// "end" id "." id ";"`
pub struct Implementation {
    /// The byte offset of the category.
    pub at: usize,
    pub category: Category,
    pub name: ImplementationName,
    pub subcomponents: Vec<Subcomponent>,
    pub connections: Vec<Connection>,
    pub properties: Vec<Association>,
    pub annexes: Vec<Annex>,
    pub end_name: ImplementationName,
}

impl Drop for Implementation {
    fn drop(self) {
        let Implementation {
            at: _,
            category: _,
            name: _,
            subcomponents: _,
            connections: _,
            properties: _,
            annexes: _,
            end_name: _,
        } = self;
    }
}

/// The name of an implementation: its type, and its own name after it: `id "." id`.
pub struct ImplementationName {
    pub component_type: Identifier,
    pub implementation: Identifier,
}

impl Drop for ImplementationName {
    fn drop(self) {
        let ImplementationName {
            component_type: _,
            implementation: _,
        } = self;
    }
}

/// A port: `id ":" ( "in" | "out" ) "data" "port" [ reference ] [ properties ] ";"`.
pub struct Feature {
    pub name: Identifier,
    pub direction: Direction,
    pub data_type: Option<Reference>,
    pub properties: Vec<Association>,
}

impl Drop for Feature {
    fn drop(self) {
        let Feature {
            name: _,
            direction: _,
            data_type: _,
            properties: _,
        } = self;
    }
}

/// `id ":" category reference [ properties ] ";"`
pub struct Subcomponent {
    pub name: Identifier,
    pub category: Category,
    pub classifier: Reference,
    pub properties: Vec<Association>,
}

impl Drop for Subcomponent {
    fn drop(self) {
        let Subcomponent {
            name: _,
            category: _,
            classifier: _,
            properties: _,
        } = self;
    }
}

/// `id ":" "port" end "->" end [ properties ] ";"`
pub struct Connection {
    pub name: Identifier,
    pub source: ConnectionEnd,
    pub target: ConnectionEnd,
    pub properties: Vec<Association>,
}

impl Drop for Connection {
    fn drop(self) {
        let Connection {
            name: _,
            source: _,
            target: _,
            properties: _,
        } = self;
    }
}

/// A port of the implementation itself, or a subcomponent and its port: `id [ "." id ]`.
pub struct ConnectionEnd {
    pub first: Identifier,
    pub second: Option<Identifier>,
}

impl Drop for ConnectionEnd {
    fn drop(self) {
        let ConnectionEnd {
            first: _,
            second: _,
        } = self;
    }
}
