//! The limits of designs, runs and scenarios. Each is defined only here; definitions and contracts cite it by
//! name.

/// One hour, in nanoseconds: the maximum period, bound and delay.
pub const HOUR: u64 = 3_600_000_000_000;

/// The maximum number of rounds of a run, which is also the maximum index of a round.
pub const ROUNDS: u32 = 100_000;

/// The maximum time and the maximum clock reading, in nanoseconds: every alarm is below it.
pub const READING: u64 = 576_460_752_303_423_488;

/// The maximum number of steps of a component in a round.
pub const RATE: u32 = 64;

/// The maximum number of ports of a thread, in and out ports together.
pub const PORTS: usize = 64;

/// The maximum number of variables of a thread.
pub const VARIABLES: usize = 64;

/// The maximum number of states of a thread.
pub const STATES: usize = 64;

/// The maximum number of components of a design.
pub const COMPONENTS: usize = 256;

/// The maximum number of links of a design.
pub const LINKS: usize = 4_096;

/// The maximum length of a name, in bytes.
pub const NAME_BYTES: usize = 64;

/// The maximum length of a component's path, in bytes.
pub const PATH_BYTES: usize = 128;

/// The maximum number of iterations of a loop.
pub const TURNS: u64 = 1_000;

/// The maximum product of the iterations of a loop and its enclosing loops.
pub const NESTED_TURNS: u64 = 10_000;

/// The maximum length of a bundle, in bytes.
pub const BUNDLE_BYTES: usize = 16_777_216;

/// The maximum number of output values of a run: the number of rounds times the values of a round.
pub const CELLS: u64 = 1_000_000;

/// The maximum number of events, clock readings, or lines of a trace in a scenario.
pub const LIST_ITEMS: usize = 1_000_000;

/// The maximum number of instructions of a component's code.
pub const INSTRUCTIONS: usize = 4_096;
