//! What comes in on a connection, and why nothing can.

ghost use Rattle.std.specs.Prelude.{◌≡◌};
ghost use Rattle.ob_http.specs.declared.inlet.HttpFault.TheVariants as HttpFaults;

use ob_io::Failed;
use std::alloc::AllocError;
use thiserror::Error;

/// The next that a connection's bytes hold.
#[derive(Debug, Drop)]
pub enum Inlet {
    /// A message. `keep`: the connection stays open after its reply.
    Post { body: Vec<u8>, keep: bool },
    /// The bytes end between messages.
    Ended,
    /// The bytes end inside a message.
    Cut,
    /// The bytes are no message that is served, and this status tells why. Nothing more
    /// comes from the connection.
    Bad(u16),
}

/// Why nothing came in. The connection is of no further use.
#[derive(Clone, Copy, Debug, PartialEq, Eq, Error)]
pub enum HttpFault {
    /// A read failed, or a write of the interim line.
    #[error("the connection failed")]
    Failed,
    /// An allocation failed.
    #[error("no memory")]
    NoMemory,
}

impl From<Failed> for HttpFault {
    ghost from_gives = { λ _ e. e ≡ HttpFaults.Failed };

    fn from(_failed: Failed) -> HttpFault {
        HttpFault::Failed
    }
}

impl From<AllocError> for HttpFault {
    ghost from_gives = { λ _ e. e ≡ HttpFaults.NoMemory };

    fn from(_error: AllocError) -> HttpFault {
        HttpFault::NoMemory
    }
}
