//! What one step of each component of a processor takes at most together, and whether that fits the longest
//! execution.
ghost use Rattle.std.specs.Prelude.{◌≡◌, ◌<◌, ◌≤◌, All, length};
ghost use Rattle.pals_base.specs.declared.limits.TheConstants.{HOUR, COMPONENTS};
ghost use Rattle.round_budget.specs.Budgets.{total, fits, numbers};

use pals_base::{Gamma, Nanos, NodeNo};
use step_code::Code;
use step_code::code::most;

/// What one step of each of these components takes at most, in nanoseconds, where an instruction takes
/// `nanos`.
pub fn total(nanos: Nanos, codes: &[Code], members: &[NodeNo]) -> u128
    requires nanos { nanos ≤ HOUR }
    requires within { All (λ node. node < length codes.now) (numbers members.now) }
    requires count { length members.now ≤ COMPONENTS }
    ensures { result ≡ total nanos codes.now (numbers members.now) }
{
    let mut sum: u128 = 0;
    for member in members {
        let most = u128::from(most(&codes[member.0 as usize]));
        sum += most;
    }
    u128::from(nanos) * sum
}

/// Whether that is at most the longest execution of a step.
pub fn fits(g: &Gamma, total: u128) -> bool
    ensures { result ≡ fits g.now total }
{
    total <= u128::from(g.alpha_max)
}
