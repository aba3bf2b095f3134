//! The basic types of all crates: times, port values, indices of components and links, traps, and the error for
//! an allocation failure.
use std::alloc::AllocError;

/// An allocation failure. It is the only error whose cause no contract states.
pub type NoMemory = AllocError;

/// A time or a clock reading, in nanoseconds.
pub type Nanos = u64;

/// The value of a port in one step: absent or a number. The Booleans false and true are 0 and 1.
#[derive(Clone, Copy, PartialEq, Debug)]
pub enum PortValue {
    Absent,
    Present(i64),
}

/// The index of a component in the order of the design, from 0.
#[derive(Clone, Copy, PartialEq, Debug)]
pub struct NodeNo(pub u32);

/// The index of a link in the order of the design, from 0.
#[derive(Clone, Copy, PartialEq, Debug)]
pub struct LinkNo(pub u32);

/// The reason why a step halted: a result that does not fit 64 bits, or a divisor of 0.
#[derive(Clone, Copy, PartialEq, Debug)]
pub enum Trap {
    Overflow,
    ZeroDivisor,
}
