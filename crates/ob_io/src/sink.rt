//! Where bytes go to.

ghost use Rattle.std.specs.Prelude.{◌≡◌, ℕ, List, Option, IsErr, IfOk, OnErr};
ghost use Rattle.ob_io.specs.Cause.{HasCause};
ghost use Rattle.ob_io.specs.Bytes.{Writes};

use crate::fault::Failed;

/// A stream of bytes, written at its end.
pub trait Sink {
    /// All bytes that were written, where the sink tells them.
    ghost written: { Self → Option (List ℕ) };

    /// How often the sink has failed.
    ghost faults: { Self → ℕ };

    /// Writes bytes from the front of the piece, and says how many: at least one of a
    /// piece that isn't empty. A write that fails writes nothing.
    fn write(&mut self, piece: &[u8]) -> Result<usize, Failed>
        ensures writes { IfOk result (λ n. Writes (written self.old) (written self.new) piece.now n) }
        ensures failed { OnErr result (written self.new ≡ written self.old) }
        ensures cause { HasCause (faults self.old) (faults self.new) (IsErr result) };
}
