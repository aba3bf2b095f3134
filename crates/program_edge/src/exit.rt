//! The end of a program.

/// The end of a program that was executed on a reader and a writer: its exit status, and both as it left them.
#[derive(Drop)]
pub struct Exit<R, W> {
    /// The exit status.
    pub status: u8,
    /// The reader of the input.
    pub reader: R,
    /// The writer of the output.
    pub writer: W,
}
