//! Why an evaluation gave no value. A new cause gets its variant here, and its place in
//! `specs/Outcome`.

ghost use Rattle.std.specs.Prelude.{◌≡◌};
ghost use Rattle.ob_expr.specs.declared.fault.EvalFault.TheVariants.{NoMemory as no_memory};

use ob_base::NoMemory;
use std::alloc::{AllocError, AllocFailed};
use thiserror::Error;

/// Why an evaluation gave no value.
#[derive(Debug, Drop, Error)]
pub enum EvalFault<F> {
    /// An integer does not fit 64 bits.
    #[error("overflow")]
    Overflow,
    /// A text is too long.
    #[error("too long")]
    TooLong,
    /// A division by zero.
    #[error("division by zero")]
    ZeroDivisor,
    /// A read failed.
    #[error("a read failed")]
    Read(F),
    #[error("no memory")]
    NoMemory,
}

impl<F> From<NoMemory> for EvalFault<F> {
    ghost from_gives = { λ _ fault. fault ≡ no_memory };

    fn from(_error: NoMemory) -> EvalFault<F> {
        EvalFault::NoMemory
    }
}

impl<F, T: Drop> From<AllocFailed<T>> for EvalFault<F> {
    ghost from_gives = { λ _ fault. fault ≡ no_memory };

    fn from(_error: AllocFailed<T>) -> EvalFault<F> {
        EvalFault::NoMemory
    }
}

impl<F> From<AllocError> for EvalFault<F> {
    ghost from_gives = { λ _ fault. fault ≡ no_memory };

    fn from(_error: AllocError) -> EvalFault<F> {
        EvalFault::NoMemory
    }
}
