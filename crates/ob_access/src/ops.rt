//! Sets of operations.

ghost use Rattle.std.specs.Prelude.{◌≡◌};
ghost use Rattle.ob_access.specs.Ops.{has_op};

use ob_base::Op;

/// The operations that an access line grants, or for which a rule is asked.
#[derive(Clone, Copy, Debug, PartialEq, Eq)]
pub struct Ops {
    pub read: bool,
    pub create: bool,
    pub write: bool,
    pub unlink: bool,
}

impl Ops {
    /// All four.
    pub const ALL: Ops = Ops {
        read: true,
        create: true,
        write: true,
        unlink: true,
    };

    /// Whether an operation is one of them.
    pub fn has(self, op: Op) -> bool
        ensures { result ≡ has_op self op }
    {
        match op {
            Op::Read => self.read,
            Op::Create => self.create,
            Op::Write => self.write,
            Op::Unlink => self.unlink,
        }
    }
}
