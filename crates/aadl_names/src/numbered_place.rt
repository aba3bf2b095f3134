//! A declaration by its number among others and its place in the text.

/// A declaration, by its number among others and its place.
#[derive(Clone, Copy)]
pub struct NumberedPlace {
    /// Its number among the declarations.
    pub number: usize,
    /// Its place in the text.
    pub at: usize,
}
