//! Equality of guards and transitions.
ghost use Rattle.std.specs.Prelude.{◌≡◌, ◌↔◌, IsTrue};
ghost use Rattle.pals_base.specs.proof.TreeViews.{trigger_of};

use super::Same;
use super::actions::same_acts;
use crate::behaviour::{Guard, Transition};

impl Guard {
    /// Returns whether another guard has the same abstract value.
    pub fn same(&self, other: &Guard) -> bool
        ensures { IsTrue result ↔ (trigger_of self.now ≡ trigger_of other.now) }
    {
        match (self, other) {
            (Guard::Dispatch, Guard::Dispatch) => true,
            (Guard::Always, Guard::Always) => true,
            (Guard::When(left), Guard::When(right)) => left.same(right),
            _ => false,
        }
    }
}

impl Same for Transition {
    fn same(&self, other: &Transition) -> bool {
        self.source == other.source
            && self.target == other.target
            && self.guard.same(&other.guard)
            && same_acts(&self.acts, &other.acts)
    }
}
