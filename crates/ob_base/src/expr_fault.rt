//! Why a text is no expression. A new cause gets its variant here, and its place in the
//! grammar.

ghost use Rattle.std.specs.Prelude.{◌≡◌};
ghost use Rattle.ob_base.specs.declared.expr_fault.ExprFault.TheVariants.{NoMemory as no_memory};

use crate::memory::NoMemory;
use std::alloc::AllocFailed;
use thiserror::Error;

/// Why a text is no expression. A fault names the offset of a token.
#[derive(Clone, Copy, Debug, PartialEq, Eq, Error)]
pub enum ExprFault {
    /// No expression goes on with what stands here: a token, or the end of the text.
    #[error("unexpected token at byte {0}")]
    At(u32),
    /// With the token that stands here, the expression nests too deep.
    #[error("too deep at byte {0}")]
    TooDeep(u32),
    #[error("no memory")]
    NoMemory,
}

impl From<NoMemory> for ExprFault {
    ghost from_gives = { λ _ fault. fault ≡ no_memory };

    fn from(_error: NoMemory) -> ExprFault {
        ExprFault::NoMemory
    }
}

impl<T: Drop> From<AllocFailed<T>> for ExprFault {
    ghost from_gives = { λ _ fault. fault ≡ no_memory };

    fn from(_error: AllocFailed<T>) -> ExprFault {
        ExprFault::NoMemory
    }
}
