//! Laws of the bound: which steps are sent, and that messages arrive between the starts of rounds. Each law is
//! the contract of a function that does nothing.
ghost use Rattle.std.specs.Prelude.{◌≡◌, ℕ, ◌+◌, ◌-◌, ◌*◌, ◌<◌, ◌≤◌, List};
ghost use Rattle.pals_base.specs.declared.period_bound_and_releases.Gamma.{Gamma};
ghost use Rattle.pals_base.specs.PeriodBoundAndReleases.{least_period, step_period, sent_steps, release_offset};
ghost use Rattle.bound_checker.specs.LeastMultiples.{IsLeastMultiple, HasNoMultiple};
ghost use Rattle.bound_checker.specs.proof.MessageTimes.{IsStarted, IsSent, IsCarried};

/// At least one and at most all of a component's steps are sent.
pub fn some_steps_are_sent()
    ensures one { (g : Gamma) (t k : ℕ) → 1 ≤ k → 1 ≤ sent_steps g t k }
    ensures all { (g : Gamma) (t k : ℕ) → sent_steps g t k ≤ k }
{}

/// The number of sent steps is the maximum possible: if consecutive steps start at different times, a step is
/// sent if it ends early enough. All steps are sent if a step period is at least the sum of the maximum
/// execution time, the maximum network delay, and twice the skew.
pub fn all_steps_that_fit_are_sent()
    ensures most { (g : Gamma) (t k n : ℕ) → 0 < step_period t k → n ≤ k →
        (n - 1) * step_period t k + g.alpha_max + g.mu_max + 2 * g.eps ≤ t → n ≤ sent_steps g t k }
    ensures all { (g : Gamma) (t k : ℕ) → 0 < step_period t k →
        g.alpha_max + g.mu_max + 2 * g.eps ≤ step_period t k → sent_steps g t k ≡ k }
{}

/// Between two steps there is time to execute one, at every rate up to the maximum.
pub fn steps_have_time_to_execute()
    ensures { (g : Gamma) (t k greatest : ℕ) → least_period g greatest ≤ t → 1 ≤ k → k ≤ greatest →
        g.alpha_max ≤ step_period t k }
{}

/// A message that is sent at the earliest send time arrives at least twice the skew after the alarm.
pub fn releases_are_late_enough()
    ensures { (g : Gamma) (t k : ℕ) → 2 * g.eps ≤ release_offset g t k + g.mu_min }
{}

/// The slowest message that is sent at the earliest send time arrives at least twice the skew before the next
/// alarm. So does a message that waited for the last step that it carries.
pub fn releases_are_early_enough()
    ensures release { (g : Gamma) (t k greatest : ℕ) → least_period g greatest ≤ t →
        release_offset g t k + g.mu_max + 2 * g.eps ≤ t }
    ensures executed { (g : Gamma) (t k greatest : ℕ) → least_period g greatest ≤ t →
        (sent_steps g t k - 1) * step_period t k + g.alpha_max + g.mu_max + 2 * g.eps ≤ t }
{}

/// The earliest send time of a round is before the next alarm.
pub fn release_lies_within_its_round()
    ensures { (g : Gamma) (t k greatest : ℕ) →
        least_period g greatest ≤ t → 1 ≤ g.eps → release_offset g t k < t }
{}

/// The main property of PALS: a message of a round arrives after every node has started that round, and before
/// any node starts the next.
pub fn messages_arrive_between_starts()
    ensures after { (g : Gamma) (t k round finished sent sent_reading arrived start reading : ℕ) →
        IsSent g t k round finished sent sent_reading → IsCarried g sent arrived →
        IsStarted g t round start reading → start < arrived }
    ensures before { (g : Gamma) (t k greatest round finished sent sent_reading arrived start reading : ℕ) →
        least_period g greatest ≤ t →
        IsSent g t k round finished sent sent_reading → IsCarried g sent arrived →
        IsStarted g t (round + 1) start reading → arrived < start }
{}

/// The least multiple is unique, and `None` is not a result if it exists. With a skew of at least 1 it is not
/// 0.
pub fn least_multiple_is_one_number()
    ensures one { (g : Gamma) (rates : List ℕ) (s t : ℕ) →
        IsLeastMultiple g rates s → IsLeastMultiple g rates t → s ≡ t }
    ensures exclusive { (g : Gamma) (rates : List ℕ) (t : ℕ) →
        IsLeastMultiple g rates t → ¬ HasNoMultiple g rates }
    ensures positive { (g : Gamma) (rates : List ℕ) (t : ℕ) →
        1 ≤ g.eps → IsLeastMultiple g rates t → 0 < t }
{}
