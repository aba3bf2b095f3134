//! The trait of a collection of parts: the result of a round for each component that is shown.
ghost use Rattle.std.specs.Prelude.{◌≡◌, ℕ, Option, option_copied, slice_get};
ghost use Rattle.pals_model.specs.declared.part.Part.{Part};

use pals_base::NodeNo;
use pals_model::Part;

/// The results of one round, for the components that are shown.
pub trait RoundParts {
    ghost part_of: { Self → ℕ → Option Part };

    /// Returns the part of a component, or `None` if the component is not shown.
    fn part(&self, node: NodeNo) -> Option<&Part>
        ensures { option_copied result ≡ part_of self.now node.0 };
}

/// The parts of all components, by their numbers.
impl RoundParts for &[Part] {
    ghost part_of = { λ parts node. slice_get parts.now node };

    fn part(&self, node: NodeNo) -> Option<&Part> {
        self.get(node.0 as usize)
    }
}
