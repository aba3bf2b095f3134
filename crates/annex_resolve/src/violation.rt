//! The violations of a design, and the numbers of the rules.
ghost use Rattle.std.specs.Prelude.{◌≡◌, [], ◌++◌, OnOk};
ghost use Rattle.annex_resolve.specs.FindingRecords.{finding, found_if};

use pals_base::{ItemList, NoMemory, Text};
use std::alloc::Global;

// ---- The rules, by their numbers.
/// A port, a variable, an operand or a loop has the wrong type, or the ends of a connection have different
/// types.
pub const BAD_TYPE: u32 = 1;
/// A component's dispatch is not periodic.
pub const NOT_PERIODIC: u32 = 2;
/// The root has no period.
pub const NO_PERIOD: u32 = 3;
/// A component's period is 0 or does not divide the root's period.
pub const NOT_DIVISOR: u32 = 4;
/// A component has more steps in a round than the maximum rate.
pub const RATE_TOO_HIGH: u32 = 5;
/// Neither of two linked rates divides the other.
pub const RATES_DONT_DIVIDE: u32 = 6;
/// The carrier of a link is not delayed.
pub const NOT_DELAYED: u32 = 7;
/// A connection with an own port at one end is delayed.
pub const DELAYED_ROOT: u32 = 8;
/// The rates differ, and there is no adaptor.
pub const NO_ADAPTOR: u32 = 9;
/// An adaptor at equal rates, on a tap, or on a connection that is not a carrier.
pub const STRAY_ADAPTOR: u32 = 10;
/// The text does not name an adaptor, or names one that is not allowed for these rates or this type.
pub const ADAPTOR_OUT_OF_RANGE: u32 = 11;
/// The number of initial states is not one, or the initial state is not complete.
pub const NO_INITIAL: u32 = 12;
/// A complete state does not have exactly one transition at the dispatch, or another state has one.
pub const DISPATCH_COUNT: u32 = 13;
/// A step can block in a state that is not complete, or a transition after `otherwise` leaves it.
pub const NO_OTHERWISE: u32 = 14;
/// A state is on a cycle of states that are not complete.
pub const CYCLE_WITHOUT_COMPLETE: u32 = 15;
/// One of the root's timing bounds is missing.
pub const GAMMA_MISSING: u32 = 16;
/// The lower end of a range is above the upper end, or the skew is 0.
pub const GAMMA_ORDER: u32 = 17;
/// The root's period leaves messages too little time.
pub const PERIOD_TOO_SHORT: u32 = 18;
/// A loop has more iterations than the limit allows.
pub const LOOP_TOO_LONG: u32 = 19;
/// A time is above one hour.
pub const NUMBER_TOO_BIG: u32 = 20;

/// A violation: the byte offset of its position in the text, the number of its rule, and the text after the
/// rule's name.
#[derive(Drop)]
pub struct Violation {
    pub at: usize,
    pub number: u32,
    pub details: Text,
}

impl Violation {
    /// Returns a violation without details.
    pub fn bare(alloc: Global, at: usize, number: u32) -> Violation
        ensures { result ≡ finding at number [] }
    {
        Violation {
            at,
            number,
            details: Text::new(String::new(alloc)),
        }
    }
}

/// Appends a violation without details under a condition. Errors: out of memory.
pub fn add_if(
    alloc: Global,
    found: &mut ItemList<Violation>,
    wrong: bool,
    at: usize,
    number: u32,
) -> Result<(), NoMemory>
    ensures { OnOk result (found.new ≡ found.old ++ found_if wrong at number []) }
{
    if wrong {
        found.push(Violation::bare(alloc, at, number))?;
    }
    Ok(())
}
