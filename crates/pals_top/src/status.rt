//! The statuses that the program ends with. There is no other, and never 8.

/// What the command asks for was written.
pub const DONE: u8 = 0;

/// What the command asks for was written, and something in it is not so: a trace is wrong, a property is
/// false at some round, or a processor has more to do than fits.
pub const NOT_SO: u8 = 1;

/// The arguments are invalid.
pub const USAGE: u8 = 2;

/// The bundle's design text is refused.
pub const TEXT_REFUSED: u8 = 3;

/// The design is refused: its package has a fault, or something is wrong with its instance.
pub const DESIGN_REFUSED: u8 = 4;

/// The scenario is refused, or an event of it.
pub const SCENARIO_REFUSED: u8 = 5;

/// A missed or an early input stopped the nodes.
pub const STOPPED: u8 = 6;

/// The clock of a node ended before its last step: its list holds no reading for its next target.
pub const CLOCK_ENDED: u8 = 7;

/// A read of the source failed.
pub const READ_FAULT: u8 = 9;

/// A write to the sink failed.
pub const WRITE_FAULT: u8 = 10;

/// There was not enough memory, and nothing was written.
pub const NO_MEMORY: u8 = 11;

/// There are more bytes than a bundle may have.
pub const TOO_LONG: u8 = 12;

/// The step code of a component is too long.
pub const CODE_TOO_LONG: u8 = 13;
