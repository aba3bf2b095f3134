//! A property that is false: its round, and its place among all properties.

/// A round at which a formula is false, and the place of the formula among all, from 0.
#[derive(Clone, Copy)]
pub struct FalseProperty {
    pub property: usize,
    pub round: u32,
}
