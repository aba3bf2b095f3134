//! The statuses that the program ends with, each as `pals` has it. There is no other.

/// The listing was written.
pub const DONE: u8 = 0;

/// The words are not one root.
pub const USAGE: u8 = 2;

/// The bundle's design text is refused.
pub const TEXT_REFUSED: u8 = 3;

/// The design is refused: its package has a fault, or something is wrong with its instance.
pub const DESIGN_REFUSED: u8 = 4;

/// A read of the source failed.
pub const READ_FAULT: u8 = 9;

/// A write to the sink failed.
pub const WRITE_FAULT: u8 = 10;

/// There was not enough memory, and nothing was written.
pub const NO_MEMORY: u8 = 11;

/// There are more bytes than a bundle may have.
pub const TOO_LONG: u8 = 12;

/// The step code of a component is too long.
pub const CODE_TOO_LONG: u8 = 13;
