//! The keeper of the rows in a file, which the host opens, or makes where it isn't there.

ghost use Rattle.std.specs.Prelude.{◌≡◌, codes, MatchResult, None, Some};
ghost use Rattle.ob_io.specs.declared.keeper.KeepFault.{KeepFault};
ghost use Rattle.ob_sqlite.specs.Fault.{fault_from};

use crate::fault::fault_of;
use crate::keeper::SqliteKeeper;
use ob_io::KeepFault;
use sqlite::{Alter, Connection, Error, File, FileStore};

/// The keeper of the rows in a file.
pub type FileKeeper = SqliteKeeper<FileStore<File>>;

/// Keeps rows in the file of this path. Where it can't be opened, the keeper has no connection.
pub fn keeper_at(rt: &HostRuntime, path: &str) -> FileKeeper
    ensures count { result.faults ≡ 0 }
    // That is the name of a database in memory, which is no file.
    ensures memory { path.now ≡ codes ":memory:" → result.shut ≡ Some KeepFault.Failed }
{
    keeper_over(Connection::open(rt, path))
}

/// The keeper of what was opened, or of nothing where an error kept it shut.
fn keeper_over<S: Alter>(opened: Result<Connection<S>, Error>) -> SqliteKeeper<S>
    ensures { MatchResult opened
        (λ _. result ≡ record { shut = None; faults = 0 })
        (λ error. result ≡ record { shut = Some (fault_from error); faults = 0 }) }
{
    match opened {
        Ok(connection) => SqliteKeeper::adopt(connection),
        Err(error) => SqliteKeeper::closed(fault_of(error) == KeepFault::NoMemory),
    }
}
