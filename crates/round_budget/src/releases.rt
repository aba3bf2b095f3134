//! The steps of one round, by their releases.
ghost use Rattle.std.specs.Prelude.{◌<◌, ◌++◌, IfOk, OnOk, length, map};
ghost use Rattle.round_budget.specs.Budgets.{releases, releases_in, releases_of, in_order, numbers};
ghost use Rattle.round_budget.specs.proof.BudgetLaws.{AreMembers};
ghost use Rattle.pals_model.specs.DesignRules.{IsDesign};
ghost use Rattle.round_budget.specs.proof.ReleaseAndLineValues.{release_value, AreReleases};

use pals_base::period_bound_and_releases::step_period;
use pals_base::{Nanos, NoMemory, NodeNo};
use pals_model::Design;
use std::alloc::Global;

/// A step of the first round, and the reading from which on it may be made, in nanoseconds.
#[derive(Clone, Copy)]
pub struct Release {
    pub node: NodeNo,
    pub step: u32,
    pub time: Nanos,
}

/// The steps that these components make in the first round, in order of release and then of
/// component.
pub fn ordered_releases(
    alloc: Global,
    design: &Design,
    members: &[NodeNo],
) -> Result<Vec<Release>, NoMemory>
    requires rules { IsDesign design.now }
    requires members { AreMembers design.now (numbers members.now) }
    ensures { IfOk result (λ made. AreReleases made.items (in_order (releases design.now (numbers members.now) 1))) }
{
    let mut releases = releases(alloc, design, members)?;
    releases.sort_unstable_by_key(|release| (release.time, release.node.0));
    Ok(releases)
}

// Those steps, component by component.
fn releases(alloc: Global, design: &Design, members: &[NodeNo]) -> Result<Vec<Release>, NoMemory>
    requires { AreMembers design.now (numbers members.now) }
    ensures { IfOk result (λ made. AreReleases made.items (releases_in design.now (numbers members.now) 0)) }
{
    let mut releases = Vec::new(alloc);
    for member in members {
        add_releases(design, *member, &mut releases)?;
    }
    Ok(releases)
}

// Appends the releases of one component.
fn add_releases(design: &Design, node: NodeNo, releases: &mut Vec<Release>) -> Result<(), NoMemory>
    requires { node.0 < length design.now.components }
    ensures { OnOk result
        (AreReleases releases.new.items (map release_value releases.old.items ++ releases_of design.now 0 node.0)) }
{
    let period = design.period();
    let rate = design.parts().rate(node);
    let gap = step_period(period, rate);
    for step in 0..rate {
        let time = period + u64::from(step) * gap;
        releases.push(Release { node, step, time })?;
    }
    Ok(())
}
