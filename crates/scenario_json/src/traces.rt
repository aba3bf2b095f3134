//! Parses the field of a trace: its lines.
ghost use Rattle.serde_json.specs.View.{view};
ghost use Rattle.scenario_values.specs.ResultCombinators.{Answers};
ghost use Rattle.scenario_json.specs.Traces.{trace_in};

use pals_base::limits::LIST_ITEMS;
use pals_base::{ItemList, Text};
use scenario_values::ScenarioFault;
use scenario_values::json_values::{owned, short_list, text};
use scenario_values::placed_faults::Place;
use serde_json::Value;
use std::alloc::Global;

/// Returns the lines of a trace. Errors: the first fault of the field.
#[tactic(auto, unfolding(crate::specs::Traces::trace_in))]
pub fn read_trace(alloc: Global, value: &Value) -> Result<ItemList<Text>, ScenarioFault>
    ensures { Answers (trace_in (view value.now)) result }
{
    let items = short_list(alloc, Place::Field("trace"), LIST_ITEMS, value)?;
    let mut lines = ItemList::new(alloc);
    for (at, item) in items.iter().enumerate() {
        let line = text(alloc, Place::Index("trace", at), item)?;
        let owned = owned(alloc, line)?;
        lines.push(owned)?;
    }
    Ok(lines)
}
