//! Where module texts are read from.

ghost use Rattle.std.specs.Prelude.{◌≡◌, ℕ, ◌<◌, ◌≤◌, List, Option, None, Some, length, IfOk, IfSome, IsErrOf, MatchOption};
ghost use Rattle.ob_io.specs.Cause.{HasCause, Rose};

use ob_base::Sequence;
use thiserror::Error;

/// Why a file could not be read.
#[derive(Clone, Copy, Debug, PartialEq, Eq, Error)]
pub enum FileFault {
    /// The host failed.
    #[error("the file could not be read")]
    Failed,
    /// There is no file of this name.
    #[error("there is no such file")]
    Absent,
    /// The file is longer than a module may be.
    #[error("the file is too long")]
    TooLong,
    /// An allocation failed.
    #[error("no memory")]
    NoMemory,
}

/// Files that are read whole, by name.
pub trait Files {
    /// What each name holds, where the files tell.
    ghost texts: { Self → Option (List ℕ → Option (List ℕ)) };

    /// How often the files have failed.
    ghost faults: { Self → ℕ };

    /// The bytes of the file of this name, at most 1,048,576 of them.
    fn read_file(&mut self, name: &str) -> Result<Sequence<u8>, FileFault>
        ensures text { IfOk result (λ bytes. (length bytes ≤ 1048576)
            × IfSome (texts self.old) (λ text_of. text_of name.now ≡ Some bytes)) }
        // Files that don't tell what they hold say so only where their count rose.
        ensures absent { IsErrOf result FileFault.Absent →
            MatchOption (texts self.old) (Rose (faults self.old) (faults self.new)) (λ text_of. text_of name.now ≡ None) }
        ensures too_long { IsErrOf result FileFault.TooLong →
            IfSome (texts self.old) (λ text_of. (bytes : List ℕ) × (text_of name.now ≡ Some bytes) × (1048576 < length bytes)) }
        ensures same { texts self.new ≡ texts self.old }
        ensures cause { HasCause (faults self.old) (faults self.new) (IsErrOf result FileFault.Failed) };
}
