//! Input adaptors: how what a source gives in a round goes over to the steps of a target of another
//! rate. What each adaptor means is `pals_base`'s `adapt`; the laws that it keeps are in `laws`.
#![tactic(auto)]

mod group_value;
pub mod laws;
mod to_higher_rate;
mod to_lower_rate;

ghost use Rattle.std.specs.Prelude.{◌≡◌, ◌/◌, ◌<◌, IfOk, slice_index_or};
ghost use Rattle.pals_base.specs.declared.basic_types.PortValue.TheVariants.{Absent};
ghost use Rattle.pals_base.specs.Adaptors.{adapt};

use pals_base::tuples::place;
use pals_base::{Adaptor, NoMemory, PortValue, Tuple};
use std::alloc::Global;

/// What a target that makes `q` steps a round reads of the tuple of a source that makes `p` steps.
/// Without an adaptor it is the tuple. Else, where `p < q`, each value goes over to `q / p` places,
/// and where not, each group of `p / q` places gives one. The only error is that there is not
/// enough memory.
pub fn adapt(
    alloc: Global,
    adaptor: Option<Adaptor>,
    p: u32,
    q: u32,
    tuple: &Tuple,
) -> Result<Tuple, NoMemory>
    ensures { IfOk result (λ t. t ≡ adapt adaptor p q tuple.now) }
{
    let places = tuple.as_slice();
    match adaptor {
        None => Tuple::from_slice(alloc, places),
        Some(adaptor) if p < q => to_higher_rate::spread_all(alloc, adaptor, ratio(q, p), places),
        Some(adaptor) => to_lower_rate::join_all(alloc, adaptor, q, ratio(p, q), places),
    }
}

/// Place `step`, from 0, of the result of `adapt`. Does not allocate, so that a step can read its
/// inputs in the tuples themselves.
pub fn adapted_place(
    adaptor: Option<Adaptor>,
    p: u32,
    q: u32,
    tuple: &[PortValue],
    step: usize,
) -> PortValue
    requires { step < q }
    ensures { result ≡ slice_index_or (adapt adaptor p q tuple.now) step Absent }
{
    match adaptor {
        None => place(tuple, step),
        Some(adaptor) if p < q => to_higher_rate::spread_place(adaptor, ratio(q, p), tuple, step),
        Some(adaptor) => to_lower_rate::joined_place(adaptor, ratio(p, q), tuple, step),
    }
}

// How many steps of the higher rate go to one of the lower. A rate of 0 has none.
fn ratio(higher: u32, lower: u32) -> u32
    ensures { result ≡ higher / lower }
{
    higher.checked_div(lower).unwrap_or(0)
}
