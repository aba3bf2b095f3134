//! Equality of contents, independent of addresses. Does not allocate.
ghost use Rattle.std.specs.Prelude.{◌≡◌, ◌↔◌, IsTrue};

mod actions;
mod expressions;
mod ports_variables_and_states;
mod transitions;
mod value_and_frame_equality;

use crate::behaviour::{Behaviour, BehaviourParts};
use crate::item_list::ItemList;

/// A type whose values can be compared by their contents.
pub trait Same {
    /// Returns whether another value has the same contents.
    fn same(&self, other: &Self) -> bool
        ensures { IsTrue result ↔ (self.now ≡ other.now) };
}

// Whether two lists have the same items in the same order.
fn same_items<T: Same>(left: &[T], right: &[T]) -> bool
    ensures { IsTrue result ↔ (left.now ≡ right.now) }
{
    if left.len() != right.len() {
        return false;
    }
    for at in 0..left.len() {
        if !left[at].same(&right[at]) {
            return false;
        }
    }
    true
}

impl<T: Same> Same for ItemList<T> {
    fn same(&self, other: &ItemList<T>) -> bool {
        same_items(self.as_slice(), other.as_slice())
    }
}

impl Same for BehaviourParts {
    fn same(&self, other: &BehaviourParts) -> bool {
        self.ins.same(&other.ins)
            && self.outs.same(&other.outs)
            && self.vars.same(&other.vars)
            && self.states.same(&other.states)
            && self.initial == other.initial
            && self.transitions.same(&other.transitions)
    }
}

impl Same for Behaviour {
    fn same(&self, other: &Behaviour) -> bool {
        self.parts().same(other.parts())
    }
}
