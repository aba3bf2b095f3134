//! The limits that apply only to scenarios.

/// The maximum number of properties of a `watch`.
pub const PROPERTIES: usize = 64;

/// The maximum number of formulas in a property, including the property itself.
pub const FORMS: usize = 1_000;

/// The maximum number of levels of formulas in a property.
pub const LEVELS: u32 = 64;

/// The number of replicas of a replicated component.
pub const REPLICAS: u64 = 3;

/// The maximum number of processors of a `budget`.
pub const PROCESSORS: usize = 256;
