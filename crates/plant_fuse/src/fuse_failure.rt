//! Why there is no fused composition.

/// Why there is no fused composition.
#[derive(Clone, Copy)]
pub enum FuseEnd {
    /// The first pair that cannot be fused: a component of it is missing or is in another pair too; or both
    /// are the same component; or the rates differ; or a link of the plant has its other end at a component
    /// other than the controller.
    BadPair { index: usize },
    /// There was not enough memory.
    Memory,
}
