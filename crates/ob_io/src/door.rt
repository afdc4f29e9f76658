//! Where connections come in, one after another.

ghost use Rattle.std.specs.Prelude.{◌≡◌, ℕ, ◌<◌, ◌≤◌, List, [], Option, length, take, option_map, IsErr, IfOk, OnErr};
ghost use Rattle.ob_io.specs.Cause.{HasCause};
ghost use Rattle.ob_io.specs.Bytes.{Reads};
ghost use Rattle.ob_io.specs.Connections.{Admits, extend_last};

use crate::fault::Failed;

/// A door through which connections come. Reads and writes are of the current one,
/// the one that came last.
pub trait Door {
    /// What the connections that haven't come yet will send, where the door tells.
    ghost coming: { Self → Option (List (List ℕ)) };

    /// What the current connection has still to send, where the door tells.
    ghost left: { Self → Option (List ℕ) };

    /// What was written to each connection that has come, where the door tells.
    ghost written: { Self → Option (List (List ℕ)) };

    /// How often `next` has failed.
    ghost next_faults: { Self → ℕ };

    /// How often `read` and `write` have failed.
    ghost faults: { Self → ℕ };

    /// Waits for the next connection, which becomes the current one. False: the door
    /// has ended.
    fn next(&mut self) -> Result<bool, Failed>
        ensures admits { IfOk result (λ admitted. Admits (coming self.old) (coming self.new) (left self.old) (left self.new) (written self.old) (written self.new) admitted) }
        ensures failed { OnErr result ((coming self.new ≡ coming self.old) × (left self.new ≡ left self.old) × (written self.new ≡ written self.old)) }
        ensures cause { HasCause (next_faults self.old) (next_faults self.new) (IsErr result) }
        ensures count { faults self.new ≡ faults self.old };

    /// Reads from the current connection, as a source does.
    fn read(&mut self, room: &mut [u8]) -> Result<usize, Failed>
        ensures reads { IfOk result (λ n. Reads (left self.old) (left self.new) room.old room.new n) }
        ensures failed { OnErr result ((left self.new ≡ left self.old) × (room.new ≡ room.old)) }
        ensures others { (coming self.new ≡ coming self.old) × (written self.new ≡ written self.old) }
        ensures cause { HasCause (faults self.old) (faults self.new) (IsErr result) }
        ensures count { next_faults self.new ≡ next_faults self.old };

    /// Writes to the current connection, as a sink does.
    fn write(&mut self, piece: &[u8]) -> Result<usize, Failed>
        ensures takes { IfOk result (λ n. (n ≤ length piece.now) × (0 < length piece.now → 0 < n)) }
        ensures writes { IfOk result (λ n. written self.new ≡ option_map (extend_last (take n piece.now)) (written self.old)) }
        ensures failed { OnErr result (written self.new ≡ written self.old) }
        ensures others { (coming self.new ≡ coming self.old) × (left self.new ≡ left self.old) }
        ensures cause { HasCause (faults self.old) (faults self.new) (IsErr result) }
        ensures count { next_faults self.new ≡ next_faults self.old };

    /// Ends the current connection: nothing more comes from it.
    fn shut(&mut self)
        ensures ended { left self.new ≡ option_map (λ _. []) (left self.old) }
        ensures others { (coming self.new ≡ coming self.old) × (written self.new ≡ written self.old) }
        ensures count { (next_faults self.new ≡ next_faults self.old) × (faults self.new ≡ faults self.old) };
}
