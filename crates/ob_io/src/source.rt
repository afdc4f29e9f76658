//! Where bytes come from.

ghost use Rattle.std.specs.Prelude.{◌≡◌, ℕ, List, Option, IsErr, IfOk, OnErr};
ghost use Rattle.ob_io.specs.Cause.{HasCause};
ghost use Rattle.ob_io.specs.Bytes.{Reads};

use crate::fault::Failed;

/// A stream of bytes, read from its front.
pub trait Source {
    /// The bytes still to come, where the source tells them.
    ghost left: { Self → Option (List ℕ) };

    /// How often the source has failed.
    ghost faults: { Self → ℕ };

    /// Puts the next bytes at the front of the room, and says how many: at least one
    /// into a room that isn't empty, or 0 at the end of the stream. A read that fails
    /// takes nothing and leaves the room as it was.
    fn read(&mut self, room: &mut [u8]) -> Result<usize, Failed>
        ensures reads { IfOk result (λ n. Reads (left self.old) (left self.new) room.old room.new n) }
        ensures failed { OnErr result ((left self.new ≡ left self.old) × (room.new ≡ room.old)) }
        ensures cause { HasCause (faults self.old) (faults self.new) (IsErr result) };
}
