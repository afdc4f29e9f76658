//! What the envelope of a request holds, and why a body has none. Only these two
//! types live here; `read` makes them.

ghost use Rattle.std.specs.Prelude.{◌≡◌};

use crate::Json;
use ob_base::{NoMemory, Place, Sequence, Word};
use thiserror::Error;

/// What a request asks for, and the id by which its reply is told.
#[derive(Drop)]
pub struct Envelope {
    /// An integer, a text or null; null where the body has none.
    pub id: Json,
    /// The service: `common` or `object`.
    pub service: Word,
    /// The service's method.
    pub method: Word,
    /// What the method is called with, in order, as many as it takes.
    pub args: Sequence<Json>,
}

/// Why a body has no envelope.
#[derive(Debug, Drop, Error)]
pub enum EnvFault {
    /// The first place of the body that is wrong, and the id by which that is told: null
    /// where none was read.
    #[error("malformed at {0}")]
    At(Place, Json),
    /// An allocation failed, so it is not known whether it is one.
    #[error("no memory")]
    NoMemory,
}

impl From<NoMemory> for EnvFault {
    ghost use Rattle.ob_rpc.specs.declared.request.EnvFault.TheVariants as fault;

    ghost from_gives = { λ _ e. e ≡ fault.NoMemory };

    fn from(_error: NoMemory) -> EnvFault {
        EnvFault::NoMemory
    }
}
