//! Adaptors, and the rates and port types for which each is allowed.
ghost use Rattle.std.specs.Prelude.{◌≡◌, ◌/◌, ◌%◌};
ghost use Rattle.pals_base.specs.AllowedAdaptors.{divides_or_divided, may_spread, may_join, is_allowed, suits_kind};

use crate::behaviour::Kind;

/// How the values of a source's tuple become the tuple of a target with another rate.
#[derive(Clone, Copy, PartialEq, Debug)]
pub enum Adaptor {
    Repeat,
    First,
    Last,
    At(u32),
    Latest,
    Max,
    Min,
    Average,
}

/// Returns whether one of two rates divides the other.
pub fn divides_or_divided(source_rate: u32, target_rate: u32) -> bool
    ensures { result ≡ divides_or_divided source_rate target_rate }
{
    remainder(target_rate, source_rate) == 0 || remainder(source_rate, target_rate) == 0
}

/// Returns whether a link from a source of one rate to a target of another may have this adaptor, or `None` for
/// a link without an adaptor. Equal rates require `None`; different rates require an adaptor.
pub fn is_allowed(adaptor: Option<Adaptor>, source_rate: u32, target_rate: u32) -> bool
    ensures { result ≡ is_allowed adaptor source_rate target_rate }
{
    match adaptor {
        None => source_rate == target_rate,
        Some(adaptor) => {
            if source_rate < target_rate {
                may_spread(adaptor, quotient(target_rate, source_rate))
            } else {
                target_rate < source_rate && may_join(adaptor, quotient(source_rate, target_rate))
            }
        }
    }
}

/// Returns whether ports of a type may have this adaptor. `Max`, `Min` and `Average` require numbers.
pub fn suits_kind(adaptor: Option<Adaptor>, kind: Kind) -> bool
    ensures { result ≡ suits_kind adaptor kind }
{
    match (adaptor, kind) {
        (Some(Adaptor::Max | Adaptor::Min | Adaptor::Average), Kind::Boolean) => false,
        _ => true,
    }
}

// Whether an adaptor to a higher rate can fill `places` places for each value.
fn may_spread(adaptor: Adaptor, places: u32) -> bool
    ensures { result ≡ may_spread adaptor places }
{
    match adaptor {
        Adaptor::Repeat | Adaptor::First | Adaptor::Last => true,
        Adaptor::At(place) => 1 <= place && place <= places,
        Adaptor::Latest | Adaptor::Max | Adaptor::Min | Adaptor::Average => false,
    }
}

// Whether an adaptor to a lower rate can fill one place from each group of `places`.
fn may_join(adaptor: Adaptor, places: u32) -> bool
    ensures { result ≡ may_join adaptor places }
{
    match adaptor {
        Adaptor::Repeat => false,
        Adaptor::At(place) => 1 <= place && place <= places,
        _ => true,
    }
}

// The quotient, or 0 if the divisor is 0.
fn quotient(dividend: u32, divisor: u32) -> u32
    ensures { result ≡ dividend / divisor }
{
    if divisor == 0 { 0 } else { dividend / divisor }
}

// The remainder, or the dividend if the divisor is 0.
fn remainder(dividend: u32, divisor: u32) -> u32
    ensures { result ≡ dividend % divisor }
{
    if divisor == 0 {
        dividend
    } else {
        dividend % divisor
    }
}
