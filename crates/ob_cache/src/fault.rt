//! Why a call of the engine gives no answer. A fault that a call gets is added to its enum.

use ob_base::{Broken, Cell, NoMemory, Refusal};
use ob_io::KeepFault;
use thiserror::Error;

/// Why a store isn't opened.
#[derive(Clone, Copy, Debug, PartialEq, Eq, Error)]
pub enum OpenFault {
    #[error("the keeper failed")]
    Keeper,
    /// No sound tables have the rows that are kept; this cell shows it.
    #[error("the rows that are kept are those of no sound tables")]
    Inconsistent(Cell),
    #[error("no memory")]
    NoMemory,
}

/// Why a cell isn't read.
#[derive(Clone, Copy, Debug, PartialEq, Eq, Error)]
pub enum ReadFault {
    /// Its row isn't there.
    #[error("there is no such row")]
    Missing,
    #[error("the keeper failed")]
    Keeper,
    #[error("no memory")]
    NoMemory,
}

/// Why edits aren't settled.
#[derive(Clone, Copy, Debug, PartialEq, Eq, Error)]
pub enum SettleFault {
    /// The tables with the edits break this.
    #[error("a constraint is broken")]
    Broken(Broken),
    #[error("the keeper failed")]
    Keeper,
    #[error("no memory")]
    NoMemory,
}

impl From<NoMemory> for OpenFault {
    ghost use Rattle.std.specs.Prelude.{◌≡◌};
    ghost use Rattle.ob_cache.specs.declared.fault.OpenFault.TheVariants as open_fault;

    ghost from_gives = { λ _ fault. fault ≡ open_fault.NoMemory };

    fn from(_error: NoMemory) -> OpenFault {
        OpenFault::NoMemory
    }
}

impl From<KeepFault> for OpenFault {
    ghost use Rattle.std.specs.Prelude.{◌≡◌};
    ghost use Rattle.ob_cache.specs.Rooms.{open_fault_of};

    ghost from_gives = { λ error fault. fault ≡ open_fault_of error };

    fn from(error: KeepFault) -> OpenFault {
        match error {
            KeepFault::Failed => OpenFault::Keeper,
            KeepFault::NoMemory => OpenFault::NoMemory,
        }
    }
}

impl From<NoMemory> for ReadFault {
    ghost use Rattle.std.specs.Prelude.{◌≡◌};
    ghost use Rattle.ob_cache.specs.declared.fault.ReadFault.TheVariants as read_fault;

    ghost from_gives = { λ _ fault. fault ≡ read_fault.NoMemory };

    fn from(_error: NoMemory) -> ReadFault {
        ReadFault::NoMemory
    }
}

impl From<NoMemory> for SettleFault {
    ghost use Rattle.std.specs.Prelude.{◌≡◌};
    ghost use Rattle.ob_cache.specs.declared.fault.SettleFault.TheVariants as settle_fault;

    ghost from_gives = { λ _ fault. fault ≡ settle_fault.NoMemory };

    fn from(_error: NoMemory) -> SettleFault {
        SettleFault::NoMemory
    }
}

impl From<SettleFault> for Refusal {
    ghost use Rattle.std.specs.Prelude.{◌≡◌};
    ghost use Rattle.ob_cache.specs.Refusals.{settle_refusal};

    ghost from_gives = { λ fault why. why ≡ settle_refusal fault };

    fn from(fault: SettleFault) -> Refusal {
        match fault {
            SettleFault::Broken(broken) => Refusal::Constraint(broken),
            SettleFault::Keeper => Refusal::Keeper,
            SettleFault::NoMemory => Refusal::NoMemory,
        }
    }
}
