//! Values that are single words.
ghost use Rattle.std.specs.Prelude.{◌≡◌};
ghost use Rattle.aadl_tree.specs.proof.PlaceMaps.{kept_place};
ghost use Rattle.aadl_tree.specs.proof.ValueViews.{value_view};
ghost use Rattle.aadl_names.specs.PropertyValueShapes.{reference_of};
ghost use Rattle.component_checks.specs.ThreadRatesAndFindings as spec;

use aadl_names::name_comparison::is_reference;
use aadl_tree::Value;

/// Returns whether a value is a reference that consists of this word.
pub fn is_word(word: &str, value: &Value) -> bool
    ensures { result ≡ spec.is_word word.now (reference_of (value_view kept_place value.now)) }
{
    match value {
        Value::Named(reference) => is_reference(reference, word),
        _ => false,
    }
}
