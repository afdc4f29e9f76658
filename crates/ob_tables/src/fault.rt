//! Why a call over tables gives no answer.

use ob_base::NoMemory;
use thiserror::Error;

/// Why a cell has no value from scratch. A cell that reads one without a value lacks what
/// that one lacks.
#[derive(Clone, Copy, Debug, PartialEq, Eq, Error)]
pub enum ScratchFault {
    /// Its row isn't there.
    #[error("there is no such row")]
    Missing,
    /// An integer does not fit 64 bits.
    #[error("overflow")]
    Overflow,
    /// A text is too long.
    #[error("too long")]
    TooLong,
    /// A division by zero.
    #[error("division by zero")]
    ZeroDivisor,
    #[error("no memory")]
    NoMemory,
}

impl From<NoMemory> for ScratchFault {
    ghost use Rattle.std.specs.Prelude.{◌≡◌};
    ghost use Rattle.ob_tables.specs.declared.fault.ScratchFault.TheVariants.{NoMemory as no_memory};

    ghost from_gives = { λ _ fault. fault ≡ no_memory };

    fn from(_error: NoMemory) -> ScratchFault {
        ScratchFault::NoMemory
    }
}
