//! Why a list is no domain, and why it isn't known whether a row meets one. A new cause gets
//! its variant here.

ghost use Rattle.std.specs.Prelude.{◌≡◌};

use ob_base::{NoMemory, Place};
use std::alloc::{AllocError, AllocFailed};
use thiserror::Error;

/// Why JSON is no domain of a model. A place is below the JSON: that of the domain, an inner
/// one too, where its list has another form, else that of the criterion.
#[derive(Debug, Drop, Error)]
pub enum DomainFault {
    /// No list, a term of another form, an operator without its terms, or a term past the limit.
    #[error("no domain at {0}")]
    Shape(Place),
    /// There is no such field, or it has too many steps.
    #[error("unknown field at {0}")]
    Field(Place),
    /// There is no such operator, or it doesn't serve the field.
    #[error("wrong operator at {0}")]
    Operator(Place),
    /// The operator takes no such operand on the field.
    #[error("wrong operand at {0}")]
    Operand(Place),
    /// A computed field that isn't kept.
    #[error("field without stored values at {0}")]
    NotStored(Place),
    /// The operator serves trees, and the field leads to none.
    #[error("no tree at {0}")]
    NoTree(Place),
    /// An allocation failed.
    #[error("no memory")]
    NoMemory,
}

/// What is wrong with a criterion, wherever it stands.
#[derive(Clone, Copy, Debug, PartialEq, Eq)]
pub(crate) enum Unfit {
    Field,
    Operator,
    Operand,
    NotStored,
    NoTree,
    NoMemory,
}

/// Why it isn't known whether a row meets a domain.
#[derive(Debug, Drop, Error)]
pub enum HoldFault<F> {
    /// The facts answered this fault.
    #[error("a fact is wanting")]
    Fact(F),
    /// An allocation failed.
    #[error("no memory")]
    NoMemory,
}

impl From<NoMemory> for DomainFault {
    ghost use Rattle.ob_domain.specs.declared.fault.DomainFault.TheVariants as fault;

    ghost from_gives = { λ _ e. e ≡ fault.NoMemory };

    fn from(_error: NoMemory) -> DomainFault {
        DomainFault::NoMemory
    }
}

impl<T: Drop> From<AllocFailed<T>> for DomainFault {
    ghost use Rattle.ob_domain.specs.declared.fault.DomainFault.TheVariants as fault;

    ghost from_gives = { λ _ e. e ≡ fault.NoMemory };

    fn from(_error: AllocFailed<T>) -> DomainFault {
        DomainFault::NoMemory
    }
}

impl From<AllocError> for DomainFault {
    ghost use Rattle.ob_domain.specs.declared.fault.DomainFault.TheVariants as fault;

    ghost from_gives = { λ _ e. e ≡ fault.NoMemory };

    fn from(_error: AllocError) -> DomainFault {
        DomainFault::NoMemory
    }
}

impl From<NoMemory> for Unfit {
    ghost use Rattle.ob_domain.specs.declared.fault.Unfit.TheVariants as unfit;

    ghost from_gives = { λ _ e. e ≡ unfit.NoMemory };

    fn from(_error: NoMemory) -> Unfit {
        Unfit::NoMemory
    }
}

impl<T: Drop> From<AllocFailed<T>> for Unfit {
    ghost use Rattle.ob_domain.specs.declared.fault.Unfit.TheVariants as unfit;

    ghost from_gives = { λ _ e. e ≡ unfit.NoMemory };

    fn from(_error: AllocFailed<T>) -> Unfit {
        Unfit::NoMemory
    }
}

impl From<AllocError> for Unfit {
    ghost use Rattle.ob_domain.specs.declared.fault.Unfit.TheVariants as unfit;

    ghost from_gives = { λ _ e. e ≡ unfit.NoMemory };

    fn from(_error: AllocError) -> Unfit {
        Unfit::NoMemory
    }
}

impl<F> From<NoMemory> for HoldFault<F> {
    ghost use Rattle.ob_domain.specs.declared.fault.HoldFault.TheVariants as fault;

    ghost from_gives = { λ _ e. e ≡ fault.NoMemory };

    fn from(_error: NoMemory) -> HoldFault<F> {
        HoldFault::NoMemory
    }
}

impl<F, T: Drop> From<AllocFailed<T>> for HoldFault<F> {
    ghost use Rattle.ob_domain.specs.declared.fault.HoldFault.TheVariants as fault;

    ghost from_gives = { λ _ e. e ≡ fault.NoMemory };

    fn from(_error: AllocFailed<T>) -> HoldFault<F> {
        HoldFault::NoMemory
    }
}

impl<F> From<AllocError> for HoldFault<F> {
    ghost use Rattle.ob_domain.specs.declared.fault.HoldFault.TheVariants as fault;

    ghost from_gives = { λ _ e. e ≡ fault.NoMemory };

    fn from(_error: AllocError) -> HoldFault<F> {
        HoldFault::NoMemory
    }
}
