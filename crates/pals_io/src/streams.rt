//! Sources, which provide bytes, and sinks, which accept them.
ghost use Rattle.std.specs.Prelude.{◌≡◌, ◌<◌, ◌≤◌, length, take, IfOk, OnErr};
ghost use Rattle.pals_io.specs.SourcesAndSinks.{SourceView, SinkView, Gives, after_read_fault, after_taking};
ghost use Rattle.pals_io.specs.SourcesAndSinks.{after_write_fault};

use super::stream_errors::Failed;

/// A source of bytes.
pub trait Source {
    // The remaining bytes, if the source exposes them, and the count of its failed calls.
    ghost shown: { Self → SourceView };

    /// Moves the first remaining bytes to the front of the buffer, which is not empty, and returns their
    /// number, which is 0 if and only if no byte remains. The count of failed calls is unchanged.
    ///
    /// # Errors
    ///
    /// [`Failed`] if the call failed, which increases the count by one. The remaining bytes are then unchanged,
    /// and the content of the buffer is unspecified.
    fn read(&mut self, buf: &mut [u8]) -> Result<usize, Failed>
        requires { 0 < length buf.old }
        ensures bound { IfOk result (λ n. n ≤ length buf.new) }
        ensures given { IfOk result (λ n. Gives (shown self.old) (shown self.new) buf.new n) }
        ensures failed { OnErr result (shown self.new ≡ after_read_fault (shown self.old)) };
}

/// A sink of bytes.
pub trait Sink {
    // The accepted bytes, if the sink exposes them, and the count of its failed calls.
    ghost shown: { Self → SinkView };

    /// Accepts the first bytes of the piece, which is not empty, and returns their number, which is at least 1.
    /// The count of failed calls is unchanged.
    ///
    /// # Errors
    ///
    /// [`Failed`] if the call failed, which increases the count by one. The sink then accepted nothing.
    fn write(&mut self, piece: &[u8]) -> Result<usize, Failed>
        requires { 0 < length piece.now }
        ensures bound { IfOk result (λ n. (0 < n) × (n ≤ length piece.now)) }
        ensures taken { IfOk result (λ n. shown self.new ≡ after_taking (shown self.old) (take n piece.now)) }
        ensures failed { OnErr result (shown self.new ≡ after_write_fault (shown self.old)) };
}
