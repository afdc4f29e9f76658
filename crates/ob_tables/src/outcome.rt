//! What an evaluation gives a cell, and why one isn't read. A new reason for a cell to lack
//! its value is added here.

use ob_base::{Cell, NoMemory, Value};
use std::collections::BTreeMap;

/// What formulas gave cells.
pub(crate) type Outcomes = BTreeMap<Cell, Outcome>;

/// What a formula gives a cell.
#[derive(Debug, Drop)]
pub(crate) enum Outcome {
    Value(Value),
    /// No value, by its own doing.
    Own(Reason),
    /// No value, since it reads a cell without one, which has none for this reason.
    Inherited(Reason),
}

impl Outcome {
    ghost use Rattle.std.specs.Prelude.{◌≡◌};
    ghost use Rattle.ob_tables.specs.Settling.{reason_of};

    /// Why it has no value.
    pub(crate) fn reason(&self) -> Option<Reason>
        ensures { result ≡ reason_of self.now }
    {
        match self {
            Outcome::Value(_) => None,
            Outcome::Own(reason) => Some(*reason),
            Outcome::Inherited(reason) => Some(*reason),
        }
    }
}

/// Why a formula gives no value.
#[derive(Clone, Copy, Debug, PartialEq, Eq)]
pub(crate) enum Reason {
    Overflow,
    TooLong,
    ZeroDivisor,
}

/// Why a cell isn't read.
#[derive(Clone, Copy, Debug, PartialEq, Eq)]
pub(crate) enum Unread {
    NoValue(Cell),
    NoMemory,
}

impl From<NoMemory> for Unread {
    ghost use Rattle.std.specs.Prelude.{◌≡◌};
    ghost use Rattle.ob_tables.specs.declared.outcome.Unread.TheVariants.{NoMemory as no_memory};

    ghost from_gives = { λ _ fault. fault ≡ no_memory };

    fn from(_error: NoMemory) -> Unread {
        Unread::NoMemory
    }
}
