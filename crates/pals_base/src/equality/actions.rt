//! Whether two actions have the same abstract tree.
ghost use Rattle.std.specs.Prelude.{◌≡◌, ◌↔◌, IsTrue};
ghost use Rattle.pals_base.specs.proof.TreeViews.{action_of, actions_along, branches_along};

use crate::behaviour::{Act, Branch};

impl Act {
    /// Returns whether another action has the same tree. The recursion is as deep as the tree.
    #[cycle(same_act)]
    pub fn same(&self, other: &Act) -> bool
        ensures { IsTrue result ↔ (action_of self.now ≡ action_of other.now) }
    {
        match (self, other) {
            (
                Act::Assign { variable, value },
                Act::Assign {
                    variable: other_variable,
                    value: other_value,
                },
            ) => *variable == *other_variable && value.same(other_value),
            (
                Act::Emit { port, value },
                Act::Emit {
                    port: other_port,
                    value: other_value,
                },
            ) => *port == *other_port && value.same(other_value),
            (
                Act::If {
                    branches,
                    otherwise,
                },
                Act::If {
                    branches: other_branches,
                    otherwise: other_otherwise,
                },
            ) => same_branches(branches, other_branches) && same_acts(otherwise, other_otherwise),
            (
                Act::For { low, high, body },
                Act::For {
                    low: other_low,
                    high: other_high,
                    body: other_body,
                },
            ) => *low == *other_low && *high == *other_high && same_acts(body, other_body),
            _ => false,
        }
    }
}

// Whether two lists of actions have the same trees.
#[cycle(same_act)]
pub(super) fn same_acts(left: &[Act], right: &[Act]) -> bool
    ensures { IsTrue result ↔ (actions_along left.now ≡ actions_along right.now) }
{
    if left.len() != right.len() {
        return false;
    }
    for at in 0..left.len() {
        if !left[at].same(&right[at]) {
            return false;
        }
    }
    true
}

// Whether two lists of branches have the same trees.
#[cycle(same_act)]
fn same_branches(left: &[Branch], right: &[Branch]) -> bool
    ensures { IsTrue result ↔ (branches_along left.now ≡ branches_along right.now) }
{
    if left.len() != right.len() {
        return false;
    }
    for at in 0..left.len() {
        if !left[at].guard.same(&right[at].guard) || !same_acts(&left[at].acts, &right[at].acts) {
            return false;
        }
    }
    true
}
