//! What a round's start reads.
ghost use Rattle.std.specs.Prelude.{◌≡◌, ◌<◌, IfOk, length, map, zip, List, Option, None, slice_index_or};
ghost use Rattle.pals_base.specs.declared.basic_types.PortValue.{PortValue};
ghost use Rattle.pals_base.specs.declared.basic_types.PortValue.TheVariants.{Absent};
ghost use Rattle.pals_base.specs.Tuples.{column};
ghost use Rattle.bus_machine.specs.Nodes.{brought, vectors_of};

use bus_machine::{Input, Plan};
use input_adaptors::adapted_place;
use link_buffers::Slot;
use pals_base::tuples::{absent, place};
use pals_base::{ItemList, NoMemory, PortValue, Tuple};
use std::alloc::Global;

/// Empty slots, one for each in port.
pub fn empty_slots(alloc: Global, inputs: &[Input]) -> Result<ItemList<Slot>, NoMemory>
    ensures { IfOk result (λ slots. slots ≡ map (λ _. None) inputs.now) }
{
    let mut slots = ItemList::new(alloc);
    for _input in inputs {
        slots.push(Slot::new())?;
    }
    Ok(slots)
}

/// Empties all slots. Does not allocate.
pub fn empty_all(slots: &mut ItemList<Slot>)
    ensures { slots.new ≡ map (λ (_ : Option (List PortValue)). None) slots.old }
{
    for at in 0..slots.len() {
        let _message = slots[at].slot_take();
    }
}

/// The input vectors of a round, one for each step, from the values of the root in ports and the
/// messages in the slots.
pub fn round_vectors(
    alloc: Global,
    plan: &Plan,
    env: &[PortValue],
    slots: &[Slot],
) -> Result<ItemList<Tuple>, NoMemory>
    requires { length slots.now ≡ length plan.now.inputs }
    ensures { IfOk result (λ vectors. vectors ≡ vectors_of plan.now env.now slots.now) }
{
    let mut vectors = ItemList::new(alloc);
    for step in 0..plan.rate {
        vectors.push(vector_at(alloc, plan, env, slots, step as usize)?)?;
    }
    Ok(vectors)
}

// What the in ports have in a step.
fn vector_at(
    alloc: Global,
    plan: &Plan,
    env: &[PortValue],
    slots: &[Slot],
    step: usize,
) -> Result<Tuple, NoMemory>
    requires slots { length slots.now ≡ length plan.now.inputs }
    requires step { step < plan.now.rate }
    ensures { IfOk result (λ vector. vector ≡ column step
        (map (λ p. brought plan.now.rate env.now p.0 p.1) (zip plan.now.inputs slots.now))) }
{
    let mut vector = ItemList::new(alloc);
    for at in 0..slots.len() {
        vector.push(port_at(alloc, plan.rate, env, plan.inputs[at], &slots[at], step)?)?;
    }
    Ok(vector)
}

// What an in port of a node of this rate has in a step.
fn port_at(
    alloc: Global,
    rate: u32,
    env: &[PortValue],
    input: Input,
    slot: &Slot,
    step: usize,
) -> Result<PortValue, NoMemory>
    requires { step < rate }
    ensures { IfOk result (λ port. port ≡ slice_index_or (brought rate env.now input slot.now) step Absent) }
{
    match input {
        Input::Nothing => Ok(PortValue::Absent),
        Input::Root { root, adaptor } => {
            Ok(adapted_place(adaptor, 1, rate, &[place(env, root)], step))
        }
        Input::Link {
            rate: from,
            adaptor,
        } => match slot.message() {
            None => {
                let message = absent(alloc, from as usize)?;
                Ok(adapted_place(adaptor, from, rate, message.as_slice(), step))
            }
            Some(message) => Ok(adapted_place(adaptor, from, rate, message.as_slice(), step)),
        },
    }
}
