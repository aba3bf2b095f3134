//! The first rule that an event violates, from the result of each rule.
ghost use Rattle.std.specs.Prelude.{◌≡◌, Bool, Some, None, true};
ghost use Rattle.trace_audit.specs.proof.FirstBrokenRule.{first_rule};

use pals_runs::TraceRule;

/// The rule that an event breaks which is before its alarm or release, or is refused for a falling
/// reading before that.
pub fn early_rule(falls: bool, early: TraceRule) -> TraceRule
    ensures { (waits tells : Bool) → Some result ≡ first_rule true falls (Some early) waits tells }
{
    if falls { TraceRule::Reading } else { early }
}

/// The rule that an event breaks which the machine allows, at its time.
pub fn late_rule(falls: bool, waits: bool, tells: bool) -> Option<TraceRule>
    ensures { result ≡ first_rule true falls None waits tells }
{
    if falls {
        return Some(TraceRule::Reading);
    }
    if waits {
        return Some(TraceRule::Due);
    }
    if tells { None } else { Some(TraceRule::Stop) }
}
