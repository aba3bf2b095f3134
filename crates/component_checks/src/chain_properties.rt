//! The properties of a connection that apply to its connection chains.
ghost use Rattle.std.specs.Prelude.{◌≡◌, codes, option_map, option_copied};
ghost use Rattle.aadl_tree.specs.proof.PlaceMaps.{kept_place};
ghost use Rattle.aadl_tree.specs.proof.ValueViews.{association_view, associations_view, value_view};
ghost use Rattle.aadl_names.specs.PropertyValueShapes.{text_of};
ghost use Rattle.component_checks.specs.proof.ChainProperties.{carried_by, adaptor_of};
ghost use Rattle.component_checks.specs.AdaptorTexts.{adaptor_named};
ghost use Rattle.component_checks.specs.ThreadRatesAndFindings.{says};

use crate::adaptor_named;
use crate::property_lookup::property_in;
use crate::unquoted_strings::unquoted;
use crate::word_values::is_word;
use aadl_names::PropertyName;
use aadl_tree::{Association, Value};
use pals_base::Adaptor;

/// The properties of a connection that apply to its connection chains.
#[derive(Clone, Copy)]
pub struct ChainProperties {
    /// Whether the timing is delayed.
    pub delayed: bool,
    /// The adaptor: `None` without an adaptor text; `Some(None)` if the text does not name an adaptor.
    pub adaptor: Option<Option<Adaptor>>,
}

impl ChainProperties {
    /// Reads the properties of a list.
    pub fn of(list: &[Association]) -> ChainProperties
        ensures { result ≡ carried_by (associations_view kept_place list.now) }
    {
        let timing = property_in(list, PropertyName::Timing);
        let adaptor = adaptor_of(property_in(list, PropertyName::Adaptor));
        ChainProperties {
            delayed: is_delayed(timing),
            adaptor,
        }
    }
}

// Whether the given timing is delayed.
fn is_delayed(given: Option<&Association>) -> bool
    ensures { result ≡ says (codes "Delayed") (option_map (association_view kept_place) (option_copied given.entry)) }
{
    match given {
        Some(given) => is_word("Delayed", &given.value),
        None => false,
    }
}

// The given adaptor, if it is a text.
fn adaptor_of(given: Option<&Association>) -> Option<Option<Adaptor>>
    ensures { result ≡ adaptor_of (option_map (association_view kept_place) (option_copied given.entry)) }
{
    match given {
        Some(given) => adaptor_in(&given.value),
        None => None,
    }
}

// The adaptor of a value, if the value is a text.
fn adaptor_in(value: &Value) -> Option<Option<Adaptor>>
    ensures { result ≡ option_map adaptor_named (text_of (value_view kept_place value.now)) }
{
    match value {
        Value::Text(bytes) => Some(adaptor_named(unquoted(bytes.as_slice()))),
        _ => None,
    }
}
