//! Why it isn't known what a change reaches. A new cause gets its variant here.

ghost use Rattle.std.specs.Prelude.{◌≡◌};

use ob_base::NoMemory;
use std::alloc::{AllocError, AllocFailed};
use thiserror::Error;

/// Why it isn't known what a change reaches.
#[derive(Debug, Drop, Error)]
pub enum CloseFault<F> {
    /// The links answered this fault.
    #[error("a link is wanting")]
    World(F),
    /// An allocation failed.
    #[error("no memory")]
    NoMemory,
}

impl<F> From<NoMemory> for CloseFault<F> {
    ghost use Rattle.ob_trigger.specs.declared.fault.CloseFault.TheVariants as fault;

    ghost from_gives = { λ _ e. e ≡ fault.NoMemory };

    fn from(_error: NoMemory) -> CloseFault<F> {
        CloseFault::NoMemory
    }
}

impl<F, T: Drop> From<AllocFailed<T>> for CloseFault<F> {
    ghost use Rattle.ob_trigger.specs.declared.fault.CloseFault.TheVariants as fault;

    ghost from_gives = { λ _ e. e ≡ fault.NoMemory };

    fn from(_error: AllocFailed<T>) -> CloseFault<F> {
        CloseFault::NoMemory
    }
}

impl<F> From<AllocError> for CloseFault<F> {
    ghost use Rattle.ob_trigger.specs.declared.fault.CloseFault.TheVariants as fault;

    ghost from_gives = { λ _ e. e ≡ fault.NoMemory };

    fn from(_error: AllocError) -> CloseFault<F> {
        CloseFault::NoMemory
    }
}
