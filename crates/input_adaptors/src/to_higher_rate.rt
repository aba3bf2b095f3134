//! To a higher rate: each value of the source over several places of the target.
ghost use Rattle.std.specs.Prelude.{◌≡◌, ◌<◌, ◌++◌, IfOk, OnOk, flat_map, slice_index_or};
ghost use Rattle.pals_base.specs.Adaptors.{spread};
ghost use Rattle.pals_base.specs.declared.basic_types.PortValue.TheVariants.{Absent};

use pals_base::tuples::place;
use pals_base::{Adaptor, NoMemory, PortValue, Tuple};
use std::alloc::Global;

/// Each value over `m` places, in order.
pub fn spread_all(
    alloc: Global,
    adaptor: Adaptor,
    m: u32,
    values: &[PortValue],
) -> Result<Tuple, NoMemory>
    ensures { IfOk result (λ t. t ≡ flat_map (spread adaptor m) values.now) }
{
    let mut tuple = Tuple::new(alloc);
    for value in values {
        push_spread(&mut tuple, adaptor, m, *value)?;
    }
    Ok(tuple)
}

/// Place `step`, from 0, of all values over `m` places each.
pub fn spread_place(adaptor: Adaptor, m: u32, values: &[PortValue], step: usize) -> PortValue
    ensures { result ≡ slice_index_or (flat_map (spread adaptor m) values.now) step Absent }
{
    if m == 0 {
        return PortValue::Absent;
    }
    let value = place(values, step / m as usize);
    at_place(adaptor, m, value, (step % m as usize) as u32)
}

// Adds the `m` places of one value.
fn push_spread(
    tuple: &mut Tuple,
    adaptor: Adaptor,
    m: u32,
    value: PortValue,
) -> Result<(), NoMemory>
    ensures { OnOk result (tuple.new ≡ tuple.old ++ spread adaptor m value) }
{
    for place in 0..m {
        tuple.push(at_place(adaptor, m, value, place))?;
    }
    Ok(())
}

// What one of the `m` places of a value has; places count from 0.
fn at_place(adaptor: Adaptor, m: u32, value: PortValue, place: u32) -> PortValue
    requires { place < m }
    ensures { result ≡ slice_index_or (spread adaptor m value) place Absent }
{
    let is_here = match adaptor {
        Adaptor::Repeat => true,
        Adaptor::First => place == 0,
        Adaptor::Last => place == m - 1,
        Adaptor::At(n) => place == n.saturating_sub(1),
        Adaptor::Latest | Adaptor::Max | Adaptor::Min | Adaptor::Average => false,
    };
    if is_here { value } else { PortValue::Absent }
}
