//! Laws about the definitions that contracts cite. Each law is the contract of a function that does nothing.

mod arithmetic;
mod clocks;
mod loops;
mod single_step;
mod step_sequences;
mod tuples;

pub use arithmetic::{
    arithmetic_traps, modulus_has_sign_of_divisor, operators_associate_left,
    remainder_has_sign_of_dividend, worked_divisions,
};
pub use clocks::picks_follow_targets;
pub use loops::loop_goes_from_low_to_high;
pub use single_step::{each_step_ends, ways_are_short};
pub use step_sequences::{halted_frame_stays, steps_one_after_another};
pub use tuples::{columns_follow_lists, cut_keeps_length};
