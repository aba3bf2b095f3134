//! The periods and rates of threads, and the root's period.
ghost use Rattle.std.specs.Prelude.{◌≡◌};
ghost use Rattle.aadl_tree.specs.proof.PackageViews.{placed};
ghost use Rattle.component_checks.specs.ThreadRatesAndFindings as spec;

use crate::package_properties::Properties;
use crate::rate_of;
use aadl_uses::{SubAt, ThreadAt};
use pals_base::Nanos;

/// Returns the period of the root in nanoseconds, or `None` if it is missing or above one hour.
pub fn root_period(properties: &Properties<'_>, root: usize) -> Option<Nanos>
    ensures { result ≡ spec.root_period (placed properties.now.uses.now.names.tree.now) root }
{
    properties.of_root(root).period.flatten()
}

/// Returns the period of a component in nanoseconds, given nearest to it on its path, or `None` if it is
/// missing or above one hour.
pub fn own_period(properties: &Properties<'_>, root: usize, subs: &[SubAt]) -> Option<Nanos>
    ensures { result ≡ spec.own_period (placed properties.now.uses.now.names.tree.now) root subs.now }
{
    properties.along(root, subs).period.flatten()
}

/// Returns the number of steps per round of a component, or `None` if it has no valid rate.
pub fn thread_rate(properties: &Properties<'_>, root: usize, thread: &ThreadAt) -> Option<u32>
    ensures { result ≡ spec.thread_rate (placed properties.now.uses.now.names.tree.now) root thread.now }
{
    let whole = root_period(properties, root);
    let own = own_period(properties, root, thread.subs.as_slice());
    rate_of(whole, own)
}

// The larger of two rates; a rejected rate is ignored.
fn greater_rate(greatest: u32, rate: Option<u32>) -> u32
    ensures { result ≡ spec.greater_rate greatest rate }
{
    match rate {
        Some(rate) => greatest.max(rate),
        None => greatest,
    }
}

/// Returns the maximum of the valid rates, or 1 if there is none.
pub fn greatest_rate(rates: &[Option<u32>]) -> u32
    ensures { result ≡ spec.greatest_rate rates.now }
{
    rates
        .iter()
        .fold(1, |greatest, rate| greater_rate(greatest, *rate))
}
