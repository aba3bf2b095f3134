//! The limit of nesting.

/// The maximum number of openers that are open at the same time.
pub const GREATEST_NESTING: usize = 64;
