//! What an error of the database is to a keeper.

ghost use Rattle.std.specs.Prelude.{◌≡◌};
ghost use Rattle.ob_sqlite.specs.Fault.{fault_from};

use ob_io::KeepFault;
use sqlite::{Error, ErrorCode};

/// Want of memory is that of a keeper too, and any other error a failure.
pub(crate) fn fault_of(error: Error) -> KeepFault
    ensures { result ≡ fault_from error }
{
    match error {
        Error::SqliteFailure(ErrorCode::OutOfMemory) => KeepFault::NoMemory,
        _ => KeepFault::Failed,
    }
}
