//! Why a form isn't read. Each fault of JSON has the place below the value where it is.

ghost use Rattle.std.specs.Prelude.{◌≡◌};

use ob_base::{NoMemory, Place};
use std::alloc::AllocError;
use thiserror::Error;

/// Why JSON gives a field no value.
#[derive(Debug, Drop, Error)]
pub enum CodecFault {
    /// Another kind of JSON value than the field takes.
    #[error("wrong shape at {0}")]
    Shape(Place),
    /// A number, a text or a date outside its range.
    #[error("out of range at {0}")]
    Range(Place),
    /// A text that is none of the selection's keys.
    #[error("unknown key at {0}")]
    Unknown(Place),
    /// An allocation failed.
    #[error("no memory")]
    NoMemory,
}

/// Why bytes give no row.
#[derive(Clone, Copy, Debug, PartialEq, Eq, Error)]
pub enum RowFault {
    /// The bytes are no row's body.
    #[error("the bytes are no row")]
    Bad,
    /// An allocation failed.
    #[error("no memory")]
    NoMemory,
}

impl From<NoMemory> for CodecFault {
    ghost use Rattle.ob_codec.specs.declared.fault.CodecFault.TheVariants as fault;

    ghost from_gives = { λ _ e. e ≡ fault.NoMemory };

    fn from(_error: NoMemory) -> CodecFault {
        CodecFault::NoMemory
    }
}

impl From<AllocError> for CodecFault {
    ghost use Rattle.ob_codec.specs.declared.fault.CodecFault.TheVariants as fault;

    ghost from_gives = { λ _ e. e ≡ fault.NoMemory };

    fn from(_error: AllocError) -> CodecFault {
        CodecFault::NoMemory
    }
}

impl From<NoMemory> for RowFault {
    ghost use Rattle.ob_codec.specs.declared.fault.RowFault.TheVariants as fault;

    ghost from_gives = { λ _ e. e ≡ fault.NoMemory };

    fn from(_error: NoMemory) -> RowFault {
        RowFault::NoMemory
    }
}
