//! A port of an implementation or of one of its subcomponents, by numbers.

/// A port, by numbers in the text's order.
#[derive(Clone, Copy, PartialEq, Eq, Hash)]
pub enum NumberedPort {
    /// A port of the implementation itself.
    Own(usize),
    /// A subcomponent, and a port of its own.
    Inner(usize, usize),
}
