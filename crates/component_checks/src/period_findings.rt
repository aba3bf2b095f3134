//! Checks of a component's period against the root's, and of the root's period against the bound.
ghost use Rattle.std.specs.Prelude.{◌≡◌, ◌≤◌, ◌++◌, IfOk, OnOk};
ghost use Rattle.std.specs.Option.{ForSome};
ghost use Rattle.pals_base.specs.declared.limits.TheConstants.{RATE};
ghost use Rattle.bound_checker.specs.proof.OverflowLimits.{IsWithinHour};
ghost use Rattle.component_checks.specs.PeriodAndAdaptorFindings.{name_and_number, period_findings, bound_findings};

use crate::bounds_and_rates::divides;
use annex_resolve::Violation;
use annex_resolve::violation::{NOT_DIVISOR, PERIOD_TOO_SHORT, RATE_TOO_HIGH};
use bound_checker::least_period;
use pals_base::limits::RATE;
use pals_base::{Gamma, ItemList, Nanos, NoMemory, Text};
use std::alloc::Global;

/// Returns a name followed by a number, separated by a space. Errors: out of memory.
pub(crate) fn name_and_number(alloc: Global, name: &str, number: u64) -> Result<Text, NoMemory>
    ensures { IfOk result (λ text. text ≡ name_and_number name.now number) }
{
    Ok(Text::new(format!(in alloc; "{name} {number}")?))
}

/// Appends the violations of a component's period, in nanoseconds: it does not divide the root's period, or its
/// rate is too high. The details are the component's path and the numbers. Errors: out of memory.
pub fn add_period_findings(
    alloc: Global,
    found: &mut ItemList<Violation>,
    at: usize,
    path: &Text,
    root: Option<Nanos>,
    own: Option<Nanos>,
) -> Result<(), NoMemory>
    ensures { OnOk result (found.new ≡ found.old ++ period_findings at path.now root own) }
{
    let (Some(root), Some(own)) = (root, own) else {
        return Ok(());
    };
    if !divides(own, root) {
        let details = name_and_number(alloc, path.as_str(), own)?;
        let details = name_and_number(alloc, details.as_str(), root)?;
        let number = NOT_DIVISOR;
        return found.push(Violation {
            at,
            number,
            details,
        });
    }
    let rate = root / own;
    if rate > u64::from(RATE) {
        let details = name_and_number(alloc, path.as_str(), rate)?;
        let number = RATE_TOO_HIGH;
        found.push(Violation {
            at,
            number,
            details,
        })?;
    }
    Ok(())
}

/// Appends a violation if the root's period is below the minimum period of the bound. `rate` is the maximum
/// rate of the design. Errors: out of memory.
pub fn add_bound_findings(
    alloc: Global,
    found: &mut ItemList<Violation>,
    at: usize,
    root: Option<Nanos>,
    gamma: Option<Gamma>,
    rate: u32,
) -> Result<(), NoMemory>
    requires gamma { ForSome gamma IsWithinHour }
    requires rate { rate ≤ RATE }
    ensures { OnOk result (found.new ≡ found.old ++ bound_findings at root gamma rate) }
{
    let (Some(root), Some(gamma)) = (root, gamma) else {
        return Ok(());
    };
    let least = least_period(&gamma, rate);
    if root < least {
        let period = format!(in alloc; "{root}")?;
        let details = name_and_number(alloc, period.as_str(), least)?;
        let number = PERIOD_TOO_SHORT;
        found.push(Violation {
            at,
            number,
            details,
        })?;
    }
    Ok(())
}
