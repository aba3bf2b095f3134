//! What does not depend on the numbers of components. Each law is the contract of a function that
//! does nothing.
ghost use Rattle.std.specs.Prelude.{◌≡◌, ◌<◌, ℕ, List, map, length, Some, slice_get};
ghost use Rattle.pals_base.specs.declared.basic_types.PortValue.{PortValue};
ghost use Rattle.pals_model.specs.declared.design.Link.{Link};
ghost use Rattle.pals_model.specs.declared.design.DesignParts.{DesignParts};
ghost use Rattle.pals_model.specs.declared.environment.Env.{Env};
ghost use Rattle.pals_model.specs.DesignRules.{IsDesign};
ghost use Rattle.pals_model.specs.Composition.{state, msg, part};
ghost use Rattle.pals_model.specs.proof.TwoCounters.{two_counters};
ghost use Rattle.pals_model.specs.ComponentInputs.{no_env};
ghost use Rattle.sync_product.specs.proof.RenumberedDesigns.{renumbered_link, renumbered_tap, IsRenumbered};
ghost use Rattle.sync_product.specs.proof.RenumberedDesigns.{AreSameInputs};
ghost use Rattle.sync_product.specs.proof.ExchangedCounters.{exchange, exchanged_counters, fed_counters};
ghost use Rattle.sync_product.specs.proof.ExchangedCounters.{exchanged_fed_counters, inputs_of_two};

/// The numbers of the components do not matter: with other numbers and the same inputs, each
/// component is in the same state after any number of rounds.
pub fn states_are_renumbered()
    ensures { (to : ℕ → ℕ) (a b : DesignParts) (env_a env_b : Env) → IsDesign a → IsDesign b → IsRenumbered to a b
        → AreSameInputs a b env_a env_b
        → (node rounds : ℕ) → node < length a.components → state b env_b (to node) rounds ≡ state a env_a node rounds }
{}

/// The numbers of the links do not matter either: the link between the same ports carries the same
/// message in each round.
pub fn messages_are_renumbered()
    ensures { (to : ℕ → ℕ) (a b : DesignParts) (env_a env_b : Env) → IsDesign a → IsDesign b → IsRenumbered to a b
        → AreSameInputs a b env_a env_b
        → (l m round : ℕ) (link : Link) → slice_get a.links l ≡ Some link
        → slice_get b.links m ≡ Some (renumbered_link to link)
        → msg b env_b m round ≡ msg a env_a l round }
{}

/// If the taps show the same ports too, each component has the same part of each round: its
/// state, and the whole tuple of each of its taps.
pub fn parts_are_renumbered()
    ensures { (to : ℕ → ℕ) (a b : DesignParts) (env_a env_b : Env) → IsDesign a → IsDesign b → IsRenumbered to a b
        → AreSameInputs a b env_a env_b
        → b.taps ≡ map (renumbered_tap to) a.taps
        → (node round : ℕ) → node < length a.components → part b env_b (to node) round ≡ part a env_a node round }
{}

/// Neither design comes first: there are numbers that give the old ones back, and the inputs are
/// the same the other way round.
pub fn numbers_go_back()
    ensures numbers { (to : ℕ → ℕ) (a b : DesignParts) → IsDesign a → IsRenumbered to a b
        → (back : ℕ → ℕ) × IsRenumbered back b a × ((n : ℕ) → n < length a.components → back (to n) ≡ n) }
    ensures inputs { (to : ℕ → ℕ) (a b : DesignParts) (env_a env_b : Env) → IsRenumbered to a b
        → AreSameInputs a b env_a env_b
        → AreSameInputs b a env_b env_a }
{}

/// There are such designs: the two counters, and the two counters with their numbers exchanged.
pub fn counters_are_renumbered()
    ensures designs { IsDesign two_counters × IsDesign exchanged_counters }
    ensures renumbered { IsRenumbered exchange two_counters exchanged_counters }
    ensures inputs { AreSameInputs two_counters exchanged_counters no_env no_env }
{}

/// There are such designs with inputs: two counters that read root in ports, which come in the
/// other order where the numbers are exchanged.
pub fn fed_counters_are_renumbered()
    ensures designs { IsDesign fed_counters × IsDesign exchanged_fed_counters }
    ensures renumbered { IsRenumbered exchange fed_counters exchanged_fed_counters }
    ensures inputs { (x y : List PortValue) → AreSameInputs fed_counters exchanged_fed_counters (inputs_of_two x y)
        (inputs_of_two y x) }
{}
