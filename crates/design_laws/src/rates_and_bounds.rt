//! Timing bounds, rates, periods and adaptors without findings are valid in a design. Each law is the contract
//! of a function that does nothing.
ghost use Rattle.std.specs.Prelude.{◌≡◌, ℕ, ◌%◌, ◌≤◌, List, [], true, Option, Some, option_map};
ghost use Rattle.std.specs.Option.{option_and_then};
ghost use Rattle.pals_base.specs.declared.behaviour.Kind.{Kind};
ghost use Rattle.pals_base.specs.declared.period_bound_and_releases.Gamma.{Gamma};
ghost use Rattle.pals_base.specs.declared.limits.TheConstants.{RATE};
ghost use Rattle.pals_base.specs.AllowedAdaptors.{divides_or_divided, is_allowed};
ghost use Rattle.pals_base.specs.PeriodBoundAndReleases.{least_period};
ghost use Rattle.pals_model.specs.DesignRules.{IsGamma};
ghost use Rattle.component_checks.specs.BoundsAndRates.{skew_of, range_of, rate_of, gamma_by};
ghost use Rattle.component_checks.specs.PeriodAndAdaptorFindings.{period_findings, pair_findings, bound_findings};
ghost use Rattle.component_checks.specs.PeriodAndAdaptorFindings.{kind_suits};
ghost use Rattle.component_checks.specs.AdaptorTexts.{adaptor_named};

/// Timing bounds that pass the checks are valid in a design: the clock deviation is positive, no range is
/// reversed, and no number exceeds one hour.
pub fn bounds_that_count()
    ensures { (skew : Option ℕ) (execution network : Option (ℕ × ℕ)) (g : Gamma)
        → gamma_by (skew_of skew) (range_of execution) (range_of network) ≡ Some g → IsGamma g }
{}

/// A rate that passes the checks is between 1 and 64, and divides the root's period.
pub fn rates_that_count()
    ensures { (t : ℕ) (p : Option ℕ) (k : ℕ) → rate_of (Some t) p ≡ Some k → (1 ≤ k) × (k ≤ RATE) × (t % k ≡ 0) }
{}

/// If the root's period has no findings, each message has time to arrive, so the period is not 0.
pub fn no_findings_leave_time()
    ensures { (at t : ℕ) (g : Gamma) (k : ℕ) → IsGamma g → bound_findings at (Some t) (Some g) k ≡ []
        → (least_period g k ≤ t) × (1 ≤ t) }
{}

/// If the period of a component has no findings, the component has a rate.
pub fn no_findings_make_a_rate()
    ensures { (at : ℕ) (path : List ℕ) (t p : ℕ) → 1 ≤ t → period_findings at path (Some t) (Some p) ≡ []
        → (k : ℕ) × (rate_of (Some t) (Some p) ≡ Some k) }
{}

/// If the adaptor between two rates has no findings, one of the rates divides the other, and the adaptor is
/// allowed for them and for the type.
pub fn no_findings_allow_the_adaptor()
    ensures { (at : ℕ) (name : List ℕ) (text : Option (List ℕ)) (kind : Option Kind) (p q : ℕ)
        → pair_findings at name (option_map adaptor_named text) kind p q ≡ []
        → (divides_or_divided p q ≡ true) × (is_allowed (option_and_then adaptor_named text) p q ≡ true)
        × (kind_suits (option_and_then adaptor_named text) kind ≡ true) }
{}
