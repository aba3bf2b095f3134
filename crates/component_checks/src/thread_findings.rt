//! Checks of a component's dispatch and period.
ghost use Rattle.std.specs.Prelude.{◌≡◌, ◌++◌, OnOk};
ghost use Rattle.aadl_tree.specs.proof.PackageViews.{placed};
ghost use Rattle.annex_resolve.specs.FindingRecords.{found_if};
ghost use Rattle.component_checks.specs.ThreadRatesAndFindings as spec;

use crate::add_period_findings;
use crate::package_properties::Properties;
use crate::property_lookup::innermost;
use crate::thread_rates::{own_period, root_period};
use aadl_tree::PackageTree;
use aadl_uses::{SubAt, ThreadAt};
use annex_resolve::Violation;
use annex_resolve::violation::NOT_PERIODIC;
use pals_base::{ItemList, NoMemory, Text};
use std::alloc::Global;

// Whether a component's dispatch is periodic.
fn is_periodic(properties: &Properties<'_>, subs: &[SubAt]) -> bool
    ensures { result ≡ spec.is_periodic (placed properties.now.uses.now.names.tree.now) subs.now }
{
    properties.of_component(subs).periodic.unwrap_or(false)
}

// The byte offset of a component's declaration.
fn thread_place(tree: &PackageTree, thread: &ThreadAt) -> usize
    ensures { result ≡ spec.thread_place (placed tree.now) thread.now }
{
    match innermost(tree, thread.subs.as_slice()) {
        Some(sub) => sub.name.at,
        None => 0,
    }
}

/// Appends a violation with a text under a condition. Errors: out of memory.
pub fn add_named(
    alloc: Global,
    found: &mut ItemList<Violation>,
    wrong: bool,
    at: usize,
    number: u32,
    details: &str,
) -> Result<(), NoMemory>
    ensures { OnOk result (found.new ≡ found.old ++ found_if wrong at number details.now) }
{
    if wrong {
        found.push(Violation {
            at,
            number,
            details: Text::from_str(alloc, details)?,
        })?;
    }
    Ok(())
}

/// Appends the violations of a component: its dispatch is not periodic, its period does not divide the root's,
/// or its rate is too high. Errors: out of memory.
pub fn add_thread_findings(
    alloc: Global,
    properties: &Properties<'_>,
    root: usize,
    thread: &ThreadAt,
    found: &mut ItemList<Violation>,
) -> Result<(), NoMemory>
    ensures { OnOk result (found.new ≡ found.old
        ++ spec.thread_findings (placed properties.now.uses.now.names.tree.now) root thread.now) }
{
    let uses = properties.uses;
    let at = thread_place(uses.names.tree, thread);
    let subs = thread.subs.as_slice();
    let wrong = !is_periodic(properties, subs);
    let path = &thread.path;
    add_named(alloc, found, wrong, at, NOT_PERIODIC, path.as_str())?;
    let whole = root_period(properties, root);
    let own = own_period(properties, root, subs);
    add_period_findings(alloc, found, at, path, whole, own)
}
