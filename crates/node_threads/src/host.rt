//! What a run in threads needs of the program's host.

/// The runtime, which starts threads and may wait for them and for locks; the starter, which admits
/// nodes to threads of their own; and the gate around their jobs.
#[derive(Drop)]
pub struct Host<'h, R, W, G> {
    pub runtime: &'h R,
    pub starter: &'h mut W,
    pub gate: &'h G,
}
