//! The inputs of the in ports of a component, step by step. The calls do not allocate.
ghost use Rattle.std.specs.Prelude.{◌≡◌, ◌<◌, [], length, map, slice_index_or};
ghost use Rattle.pals_base.specs.declared.basic_types.PortValue.TheVariants.{Absent};
ghost use Rattle.pals_base.specs.Tuples.{column};
ghost use Rattle.sync_product.specs.proof.Rounds.{brought};

use crate::wiring::WiredComponent;
use input_adaptors::adapted_place;
use pals_base::tuples::place;
use pals_base::{PortValue, Tuple};
use pals_model::{Design, PortSource};

/// What all components read in a round: the values of the root in ports, and the messages of the
/// round before.
#[derive(Clone, Copy)]
pub struct RoundInputs<'a> {
    pub design: &'a Design,
    pub values: &'a [PortValue],
    pub messages: &'a [Tuple],
}

/// Writes what the in ports of a component have in a step, from 0.
pub fn write_inputs(inputs: &mut Tuple, round: RoundInputs, wired: WiredComponent, step: usize)
    requires count { length inputs.old ≡ length wired.sources.now }
    requires step { step < wired.component.now.rate }
    ensures inputs { inputs.new ≡ column step
        (map (brought round.entry wired.entry.component.now.rate) wired.entry.sources.now) }
    ensures len { length inputs.new ≡ length inputs.old }
{
    let rate = wired.component.rate;
    for at in 0..wired.sources.len() {
        inputs.set(at, value_brought(round, rate, wired.sources[at], step));
    }
}

/// What an in port of a component of this rate has in a step.
pub fn value_brought(round: RoundInputs, rate: u32, source: PortSource, step: usize) -> PortValue
    requires { step < rate }
    ensures { result ≡ slice_index_or (brought round.entry rate source) step Absent }
{
    match source {
        PortSource::Nothing => PortValue::Absent,
        PortSource::Feed(feed, root) => match round.design.feeds().get(feed) {
            None => PortValue::Absent,
            Some(feed) => adapted_place(feed.adaptor, 1, rate, &[place(round.values, root)], step),
        },
        PortSource::Link(number) => match round.design.links().get(number) {
            None => PortValue::Absent,
            Some(link) => {
                let source_rate = round.design.parts().rate(link.source);
                let message = message_at(round.messages, number);
                adapted_place(link.adaptor, source_rate, rate, message, step)
            }
        },
    }
}

// The places of a message; empty if there is no such message.
fn message_at(messages: &[Tuple], number: usize) -> &[PortValue]
    ensures { result.now ≡ slice_index_or messages.now number [] }
{
    if number < messages.len() {
        messages[number].as_slice()
    } else {
        &[]
    }
}
