//! The foundation of all other crates: port values, arithmetic with traps, behaviours and their semantics,
//! adaptors, the period bound, and the limits of designs.
//!
//! Each function is proved equal to its definition in `specs/`, which contracts of all crates cite. The laws
//! state, among others, that each step of a well-formed behaviour ends in a complete state, and that a halted
//! component remains halted. The crate does not define designs, and parses no text.
#![tactic(auto)]

pub mod allowed_adaptors;
pub mod arithmetic;
pub mod basic_types;
pub mod behaviour;
pub mod behaviour_rules;
pub mod equality;
pub mod expression_kinds;
pub mod frames;
pub mod item_list;
pub mod laws;
pub mod limits;
pub mod names;
pub mod period_bound_and_releases;
pub mod text;
pub mod try_clone;
pub mod tuples;

pub use allowed_adaptors::Adaptor;
pub use arithmetic::{abs, add, modulo, mul, neg, quot, rem, sub};
pub use basic_types::{LinkNo, Nanos, NoMemory, NodeNo, PortValue, Trap};
pub use behaviour::{
    Act, Behaviour, BehaviourParts, Branch, Expr, Guard, Kind, Op, Operand, PortDecl, StateDecl,
    Transition, VarDecl,
};
pub use equality::Same;
pub use expression_kinds::Kinds;
pub use frames::Frame;
pub use item_list::ItemList;
pub use names::HasName;
pub use period_bound_and_releases::Gamma;
pub use text::Text;
pub use try_clone::TryClone;
pub use tuples::Tuple;
