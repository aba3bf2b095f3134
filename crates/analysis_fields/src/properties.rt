//! Parses the field of properties: each with its name and its formula.
ghost use Rattle.std.specs.Prelude.{◌≡◌, map};
ghost use Rattle.std.specs.List.{list_all};
ghost use Rattle.serde_json.specs.View.{view};
ghost use Rattle.pals_base.specs.Names.{is_word};
ghost use Rattle.scenario_values.specs.ResultCombinators.{Answers};
ghost use Rattle.scenario_values.specs.FieldValues.{entry_of};
ghost use Rattle.analysis_fields.specs.Properties.{property_in, properties_in};

use crate::formulas::{formula_in, is_small};
use crate::limits::{LEVELS, PROPERTIES};
use pals_base::names::is_word;
use pals_base::{ItemList, Text};
use pals_runs::Form;
use scenario_values::json_values::{entries, owned};
use scenario_values::placed_faults::{Place, out_of_range};
use scenario_values::{DesignNames, ScenarioFault};
use serde_json::{Map, Value};
use std::alloc::Global;
use std::marker::Model;

/// A property of a monitor: its name, which is a word, and its formula. The model of the formula is a plain
/// tree.
pub struct Property {
    pub name: Text,
    pub form: Form,
}

impl Drop for Property {
    fn drop(self) {
        let Property { name: _, form: _ } = self;
    }
}

impl Model for Property {
    ghost use Rattle.analysis_fields.specs.NamedFormulas.{PropertyValue};
    ghost use Rattle.analysis_fields.specs.proof.InjectivePropertyCodes.{property_code};

    ghost Value = { PropertyValue };

    ghost coded = { property_code };

    ghost use Rattle.pals_runs.specs.proof.FormulasOfForms.{formula_of};

    ghost view = { λ property. record { name = property.name; form = formula_of property.form } };
}

// Parses one property. Checks its size before everything else.
#[tactic(auto, unfolding(crate::specs::Properties::property_in))]
fn read_property(
    alloc: Global,
    names: &DesignNames<'_>,
    name: &str,
    value: &Value,
) -> Result<Property, ScenarioFault>
    ensures { Answers (property_in names.now (name.now, view value.now)) result }
{
    let place = Place::Name("properties", name);
    if !is_small(value) {
        return Err(out_of_range(alloc, place));
    }
    let form = formula_in(alloc, names, place, LEVELS, value)?;
    let name = owned(alloc, name)?;
    Ok(Property { name, form })
}

// Whether all names are words.
fn are_words(members: &Map<String, Value>) -> bool
    ensures { result ≡ list_all (λ e. is_word e.0) (map entry_of members.now.entries) }
{
    for (name, _) in members.iter() {
        if !is_word(name.as_bytes()) {
            return false;
        }
    }
    true
}

/// Returns the properties, in byte order of their names. Errors: the first fault of the field.
#[tactic(auto, unfolding(crate::specs::Properties::properties_in))]
pub fn read_properties(
    alloc: Global,
    names: &DesignNames<'_>,
    value: &Value,
) -> Result<ItemList<Property>, ScenarioFault>
    ensures { Answers (properties_in names.now (view value.now)) result }
{
    let place = Place::Field("properties");
    let members = entries(alloc, place, value)?;
    if members.len() < 1 || members.len() > PROPERTIES || !are_words(members) {
        return Err(out_of_range(alloc, place));
    }
    let mut properties = ItemList::new(alloc);
    for (name, item) in members.iter() {
        let property = read_property(alloc, names, name.as_str(), item)?;
        properties.push(property)?;
    }
    Ok(properties)
}
