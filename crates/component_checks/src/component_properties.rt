//! The properties of a component.
ghost use Rattle.std.specs.Prelude.{◌≡◌, ◌∷◌, [], option_map, option_copied};
ghost use Rattle.aadl_tree.specs.proof.PlaceMaps.{kept_place};
ghost use Rattle.aadl_tree.specs.proof.ValueViews.{association_view, associations_view};
ghost use Rattle.component_checks.specs.proof.ComponentProperties.{period_at, dispatch_at, timed_by, nearer};

use crate::property_lookup::property_in;
use crate::times::time_within;
use crate::word_values::is_word;
use aadl_names::PropertyName;
use aadl_tree::Association;
use pals_base::Nanos;

/// The properties of a component, from several lists; the nearest list takes precedence.
#[derive(Clone, Copy)]
pub struct ComponentProperties {
    /// The period in nanoseconds, if one is given; `Some(None)` if it is above one hour.
    pub period: Option<Option<Nanos>>,
    /// Whether the dispatch is periodic, if one is given.
    pub periodic: Option<bool>,
}

impl ComponentProperties {
    /// Returns the properties without any list.
    pub fn none() -> ComponentProperties
        ensures { result ≡ timed_by [] }
    {
        ComponentProperties {
            period: None,
            periodic: None,
        }
    }

    /// Reads the properties of one list.
    #[tactic(auto, using(crate::proofs::NamedAssociations::first_of_one))]
    pub fn of(list: &[Association]) -> ComponentProperties
        ensures { result ≡ timed_by (associations_view kept_place list.now ∷ []) }
    {
        ComponentProperties {
            period: period_at(property_in(list, PropertyName::Period)),
            periodic: dispatch_at(property_in(list, PropertyName::Dispatch)),
        }
    }

    /// Returns these properties, with missing ones taken from `further`.
    pub fn or(self, further: ComponentProperties) -> ComponentProperties
        ensures { result ≡ nearer self further }
    {
        ComponentProperties {
            period: self.period.or(further.period),
            periodic: self.periodic.or(further.periodic),
        }
    }
}

fn period_at(given: Option<&Association>) -> Option<Option<Nanos>>
    ensures { result ≡ period_at (option_map (association_view kept_place) (option_copied given.entry)) }
{
    match given {
        Some(given) => Some(time_within(&given.value)),
        None => None,
    }
}

// Whether the given dispatch is periodic.
fn dispatch_at(given: Option<&Association>) -> Option<bool>
    ensures { result ≡ dispatch_at (option_map (association_view kept_place) (option_copied given.entry)) }
{
    match given {
        Some(given) => Some(is_word("Periodic", &given.value)),
        None => None,
    }
}
