//! To a lower rate: one place of the target from each group of the source's places.
ghost use Rattle.std.specs.Prelude.{◌≡◌, ◌<◌, ◌*◌, ◌^◌, IfOk, map, take, drop};
ghost use Rattle.pals_base.specs.Adaptors.{joined, groups};

use crate::group_value;
use pals_base::{Adaptor, NoMemory, PortValue, Tuple};
use std::alloc::Global;

/// One place from each of the first `count` groups of `m` places.
pub fn join_all(
    alloc: Global,
    adaptor: Adaptor,
    count: u32,
    m: u32,
    places: &[PortValue],
) -> Result<Tuple, NoMemory>
    ensures { IfOk result (λ t. t ≡ map (joined adaptor) (groups count m places.now)) }
{
    let mut tuple = Tuple::new(alloc);
    let mut rest = places;
    for _group_number in 0..count {
        let (group, later) = rest.split_at((m as usize).min(rest.len()));
        tuple.push(group_value::joined(adaptor, group))?;
        rest = later;
    }
    Ok(tuple)
}

/// What group `at`, from 0, of `m` places gives.
pub fn joined_place(adaptor: Adaptor, m: u32, places: &[PortValue], at: usize) -> PortValue
    requires { at * m < 2 ^ 64 }
    ensures { result ≡ joined adaptor (take m (drop (at * m) places.now)) }
{
    let (_earlier, rest) = places.split_at((at * m as usize).min(places.len()));
    let (group, _later) = rest.split_at((m as usize).min(rest.len()));
    group_value::joined(adaptor, group)
}
