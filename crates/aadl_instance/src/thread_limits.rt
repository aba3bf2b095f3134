//! The limits of threads.
ghost use Rattle.std.specs.Prelude.{◌≡◌, ◌↔◌, ◌<◌, ℕ, min, Contains, IsTrue};
ghost use Rattle.aadl_tree.specs.proof.PackageViews.{placed};
ghost use Rattle.aadl_uses.specs.ContainmentAndUse.{IsInUse};
ghost use Rattle.aadl_uses.specs.ThreadLocations.{ThreadWith};
ghost use Rattle.aadl_instance.specs.proof.ThreadLimits as spec;
ghost use Rattle.aadl_instance.specs.proof.ThreadLimits.{HasTooMany};

use crate::behaviour_sizes::{states_up_to, variables_up_to};
use aadl_uses::PackageConnections;
use indexmap::IndexSet;
use pals_base::limits::{PORTS, STATES, VARIABLES};

/// A limited quantity of a thread.
#[derive(Clone, Copy)]
pub enum ThreadPart {
    /// In ports and out ports together.
    Ports,
    /// Variables of its behaviour, without loop variables.
    Variables,
    /// States of its behaviour.
    States,
}

impl ThreadPart {
    // The limit of the quantity.
    fn most(self) -> usize
        ensures { result ≡ spec.most self }
    {
        match self {
            ThreadPart::Ports => PORTS,
            ThreadPart::Variables => VARIABLES,
            ThreadPart::States => STATES,
        }
    }
}

/// Returns whether some thread in use exceeds the limit of a quantity.
pub fn has_too_many(
    wires: &PackageConnections<'_>,
    used: &IndexSet<usize>,
    part: ThreadPart,
) -> bool
    ensures used { IsTrue result ↔ HasTooMany (placed wires.now.uses.names.tree.now) used.now.keys part }
    // for the implementations in use below a root
    ensures below { (root : ℕ) → ((n : ℕ) → Contains used.now.keys n
        ↔ IsInUse (placed wires.now.uses.names.tree.now) root n)
        → IsTrue result
        ↔ ThreadWith (placed wires.now.uses.names.tree.now) root
        (λ x path. spec.most part < spec.count_of (placed wires.now.uses.names.tree.now) x part) }
{
    for number in 0..wires.uses.len() {
        if used.contains(&number) && wires.uses.is_thread(number) && has_over(wires, number, part) {
            return true;
        }
    }
    false
}

// Whether an implementation exceeds the limit of a quantity.
fn has_over(wires: &PackageConnections<'_>, number: usize, part: ThreadPart) -> bool
    ensures { IsTrue result ↔ (spec.most part < spec.count_at (placed wires.now.uses.names.tree.now) number part) }
{
    count_up_to(wires, number, part, part.most() + 1) > part.most()
}

// The quantity of an implementation, counted up to a limit.
fn count_up_to(
    wires: &PackageConnections<'_>,
    number: usize,
    part: ThreadPart,
    limit: usize,
) -> usize
    ensures { result ≡ min limit (spec.count_at (placed wires.now.uses.names.tree.now) number part) }
{
    match part {
        ThreadPart::Ports => limit.min(wires.uses.ports(number).len()),
        ThreadPart::Variables => match wires.uses.implementation(number) {
            Some(x) => variables_up_to(x, limit),
            None => 0,
        },
        ThreadPart::States => match wires.uses.implementation(number) {
            Some(x) => states_up_to(x, limit),
            None => 0,
        },
    }
}
