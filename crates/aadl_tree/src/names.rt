//! Names and references. Each word stores its place, the byte offset of its first byte in the text.
ghost use Rattle.std.specs.Prelude.{IsTrue};
ghost use Rattle.aadl_lex.specs.Rules.{is_word};

use crate::spelling::Spelling;

/// A word other than a keyword, spelled as in the text.
#[derive(Drop)]
pub struct Identifier {
    /// Its byte offset.
    pub at: usize,
    /// A letter followed by letters, digits and `_`; at most [`aadl_lex::NAME_BYTES`] bytes.
    pub spelling: Spelling,
    pub ghost word: { IsTrue (is_word spelling) },
}

/// A name: words separated by `::`: `id { "::" id }`.
pub struct Name {
    pub first: Identifier,
    pub rest: Vec<Identifier>,
}

impl Drop for Name {
    fn drop(self) {
        let Name { first: _, rest: _ } = self;
    }
}

/// A path through components: `id { "." id }`.
pub struct Path {
    pub first: Identifier,
    pub rest: Vec<Identifier>,
}

impl Drop for Path {
    fn drop(self) {
        let Path { first: _, rest: _ } = self;
    }
}

/// Names that are declared together: `id { "," id }`.
pub struct Identifiers {
    pub first: Identifier,
    pub rest: Vec<Identifier>,
}

impl Drop for Identifiers {
    fn drop(self) {
        let Identifiers { first: _, rest: _ } = self;
    }
}

/// A reference to a type or an implementation: `{ id "::" } id [ "." id ]`.
pub struct Reference {
    /// The words of the type's package, if the reference names it.
    pub qualifiers: Vec<Identifier>,
    /// The type.
    pub type_name: Identifier,
    /// The implementation of the type.
    pub implementation: Option<Identifier>,
}

impl Drop for Reference {
    fn drop(self) {
        let Reference {
            qualifiers: _,
            type_name: _,
            implementation: _,
        } = self;
    }
}
