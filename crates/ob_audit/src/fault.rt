//! Why there is no report, and why the rows of a keeper aren't read.

use ob_base::{Cell, NoMemory};
use ob_io::KeepFault;
use thiserror::Error;

/// Why a store isn't audited.
#[derive(Clone, Copy, Debug, PartialEq, Eq, Error)]
pub enum AuditFault {
    #[error("the keeper failed")]
    Keeper,
    #[error("no memory")]
    NoMemory,
}

/// Why rows aren't read.
#[derive(Clone, Copy, Debug, PartialEq, Eq, Error)]
pub(crate) enum ReadingFault {
    #[error("the keeper failed")]
    Keeper,
    /// The row of this cell, of the field `id`, can't be read.
    #[error("a row can't be read")]
    Unreadable(Cell),
    #[error("no memory")]
    NoMemory,
}

impl From<NoMemory> for AuditFault {
    ghost use Rattle.std.specs.Prelude.{◌≡◌};
    ghost use Rattle.ob_audit.specs.declared.fault.AuditFault.TheVariants as audit_fault;

    ghost from_gives = { λ _ fault. fault ≡ audit_fault.NoMemory };

    fn from(_error: NoMemory) -> AuditFault {
        AuditFault::NoMemory
    }
}

impl From<NoMemory> for ReadingFault {
    ghost use Rattle.std.specs.Prelude.{◌≡◌};
    ghost use Rattle.ob_audit.specs.declared.fault.ReadingFault.TheVariants as reading_fault;

    ghost from_gives = { λ _ fault. fault ≡ reading_fault.NoMemory };

    fn from(_error: NoMemory) -> ReadingFault {
        ReadingFault::NoMemory
    }
}

impl From<KeepFault> for ReadingFault {
    ghost use Rattle.std.specs.Prelude.{◌≡◌};
    ghost use Rattle.ob_audit.specs.Reading.{reading_fault_of};

    ghost from_gives = { λ error fault. fault ≡ reading_fault_of error };

    fn from(error: KeepFault) -> ReadingFault {
        match error {
            KeepFault::Failed => ReadingFault::Keeper,
            KeepFault::NoMemory => ReadingFault::NoMemory,
        }
    }
}
