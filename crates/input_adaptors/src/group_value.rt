//! The one place that a group of places gives.
ghost use Rattle.std.specs.Prelude.{◌≡◌, ◌*◌, ◌-◌, ◌^◌, pos, neg_ℤ, ◌≤ℤ◌, slice_index_or};
ghost use Rattle.std.specs.List.{reduce};
ghost use Rattle.std.specs.Int.{int_max, int_min};
ghost use Rattle.pals_base.specs.Adaptors.{joined, present, of_present, average_of};
ghost use Rattle.pals_base.specs.declared.basic_types.PortValue.TheVariants.{Absent};
ghost use Rattle.input_adaptors.specs.proof.PortValuesAsNumbers.{number_of, port_of, mean_of};

use pals_base::{Adaptor, PortValue};

/// What the group gives by the adaptor: a certain place of it, or a number made of its present ones.
#[tactic(auto, using(crate::proofs::PresentNumbers::as_ports))]
pub fn joined(adaptor: Adaptor, group: &[PortValue]) -> PortValue
    ensures { result ≡ joined adaptor group.now }
{
    match adaptor {
        Adaptor::First => place(group, 0),
        Adaptor::Last => place(group, group.len().saturating_sub(1)),
        Adaptor::At(n) => place(group, n.saturating_sub(1) as usize),
        Adaptor::Latest => port(latest(group)),
        Adaptor::Max => port(greatest(group)),
        Adaptor::Min => port(least(group)),
        Adaptor::Average => average(group),
        Adaptor::Repeat => PortValue::Absent,
    }
}

// A place of the group, from 0, absent past its end.
fn place(group: &[PortValue], at: usize) -> PortValue
    ensures { result ≡ slice_index_or group.now at Absent }
{
    group.get(at).copied().unwrap_or(PortValue::Absent)
}

// The number of a port, if it has one.
fn number(port: &PortValue) -> Option<i64>
    ensures { result ≡ number_of port.now }
{
    match port {
        PortValue::Absent => None,
        PortValue::Present(value) => Some(*value),
    }
}

// A port with the number, if there is one.
fn port(number: Option<i64>) -> PortValue
    ensures { result ≡ port_of number }
{
    number.map_or(PortValue::Absent, PortValue::Present)
}

// The last present number.
fn latest(group: &[PortValue]) -> Option<i64>
    ensures { result ≡ reduce (λ _ later. later) (present group.now) }
{
    group.iter().filter_map(number).last()
}

// The maximum present number.
fn greatest(group: &[PortValue]) -> Option<i64>
    ensures { result ≡ reduce int_max (present group.now) }
{
    group.iter().filter_map(number).max()
}

// The least present number.
fn least(group: &[PortValue]) -> Option<i64>
    ensures { result ≡ reduce int_min (present group.now) }
{
    group.iter().filter_map(number).min()
}

// The sum of the present numbers divided by their count, towards zero.
fn average(group: &[PortValue]) -> PortValue
    ensures { result ≡ of_present average_of (present group.now) }
{
    let mut sum: i128 = 0;
    let mut count: usize = 0;
    for port in group {
        if let PortValue::Present(value) = *port {
            sum += i128::from(value);
            count += 1;
        }
    }
    quotient(sum, count)
}

// A sum of `count` 64-bit numbers divided by their count, towards zero; absent if `count` is 0.
fn quotient(sum: i128, count: usize) -> PortValue
    requires low { neg_ℤ (pos (2 ^ 63 * count)) ≤ℤ sum }
    requires high { sum ≤ℤ pos ((2 ^ 63 - 1) * count) }
    ensures { result ≡ mean_of sum count }
{
    if count == 0 {
        PortValue::Absent
    } else {
        PortValue::Present((sum / count as i128) as i64)
    }
}
