//! The grammar of a design text: its terminals, its trees, and the parts that spell each tree.
//!
//! A text is a package of types and implementations; behaviour annexes have a grammar of their own. The trees
//! here store the meaning of a text and the byte offsets of its parts. They do not store comments, sections of
//! `none ;`, or a `;` after the last action, and the canonical text omits these too.
//!
//! The definitions in `specs/` are the grammar that all contracts cite: the trees of a text, its canonical
//! text, and the first fault of a text without a tree. The crate compares trees, but does not parse or print
//! them.
//!
//! Trees with several lists implement `Drop` by hand, so that dropping one is a single call in its owner.
#![tactic(auto)]

pub mod actions;
pub mod annex;
mod compact_push;
pub mod declarations;
pub mod expression_offsets;
pub mod expressions;
mod keywords_and_symbols;
pub mod laws;
pub mod mark;
pub mod names;
pub mod nesting_limit;
pub mod package;
pub mod sameness;
pub mod spelling;
pub mod values;

pub use actions::{Action, Actions, Block, Bound, Choice, Elsif, Loop};
pub use annex::{
    Annex, AnnexContent, AnnexTree, Guard, StateDeclaration, Transition, VariableDeclaration,
};
pub use compact_push::push_compact;
pub use declarations::{
    Category, Connection, ConnectionEnd, Declaration, Direction, Feature, Implementation,
    ImplementationName, Subcomponent, TypeDeclaration, With,
};
pub use expressions::{
    Expression, Factor, LeadingSign, LogicOperator, MultiplyOperator, Primary, Relation,
    RelationOperator, Sign, Sum, Term,
};
pub use mark::Mark;
pub use names::{Identifier, Identifiers, Name, Path, Reference};
pub use nesting_limit::GREATEST_NESTING;
pub use package::PackageTree;
pub use sameness::{Same, same};
pub use spelling::Spelling;
pub use values::{Association, AssociationOperator, Number, Quantity, UnsignedNumber, Value};
