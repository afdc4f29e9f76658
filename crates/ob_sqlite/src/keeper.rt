//! The form of the trait over SQLite: it counts its faults, and has a connection or none.

ghost use Rattle.std.specs.Prelude.{◌≡◌, All, IfOk, IfSome, IsErrOf, None, Some, if◌then◌else◌, map};
ghost use Rattle.ob_io.specs.declared.keeper.KeepFault.{KeepFault};
ghost use Rattle.ob_io.specs.Cause.{HasCause};
ghost use Rattle.ob_io.specs.Faults.{count_after};
ghost use Rattle.ob_io.specs.Kept.{has_failed};
ghost use Rattle.ob_io.specs.Store.{Fits63, IsAnswerOf, IsChangeFit, IsPage};

use crate::opened::Opened;
use ob_base::{FieldNo, ModelNo, RecId, RefList, Sequence};
use ob_io::{Change, KeepFault, Keeper, KeptRow};
use sqlite::{Alter, Connection, File, FileStore};
use std::marker::Model;

/// Keeps rows in a database of SQLite. It doesn't tell what it keeps.
#[derive(Drop)]
pub struct SqliteKeeper<S: Alter> {
    held: Result<Opened<S>, KeepFault>,
    faults: u64,
}

impl<S: Alter> Model for SqliteKeeper<S> {
    ghost use Rattle.ob_sqlite.specs.Shown.{Shown, shut_of};

    ghost Value = { Shown };

    ghost view = { λ k. record { shut = shut_of k.held; faults = k.faults } };
}

impl<S: Alter> SqliteKeeper<S> {
    /// Keeps rows by this connection. The tables are made at the first call.
    pub fn adopt(connection: Connection<S>) -> SqliteKeeper<S>
        ensures { result ≡ record { shut = None; faults = 0 } }
    {
        SqliteKeeper {
            held: Ok(Opened::new(connection)),
            faults: 0,
        }
    }

    /// Has no connection: each call answers want of memory, where that kept the database shut,
    /// or else fails.
    pub fn closed(memory: bool) -> SqliteKeeper<S>
        ensures { result ≡ record {
          shut = Some (if memory then KeepFault.NoMemory else KeepFault.Failed);
          faults = 0;
        } }
    {
        let fault = if memory {
            KeepFault::NoMemory
        } else {
            KeepFault::Failed
        };
        SqliteKeeper {
            held: Err(fault),
            faults: 0,
        }
    }
}

impl SqliteKeeper<FileStore<File>> {
    /// Ends the work on a file: what was kept in its log is copied into the file, where the disk
    /// lets it. Without this it is kept in the log, which belongs to the file.
    pub fn close(self) {
        let SqliteKeeper { held, faults: _ } = self;
        if let Ok(opened) = held {
            opened.close();
        }
    }
}

/// The answer of a call. A failure is counted, up to the greatest u64.
fn counted<T: Drop>(told: Result<T, KeepFault>, faults: &mut u64) -> Result<T, KeepFault>
    ensures answer { result ≡ told }
    ensures count { faults.new ≡ count_after (has_failed told) faults.old }
    ensures cause { HasCause faults.old faults.new (IsErrOf result KeepFault.Failed) }
{
    if let Err(KeepFault::Failed) = told {
        *faults = faults.saturating_add(1);
    }
    told
}

impl<S: Alter> Keeper for SqliteKeeper<S> {
    ghost kept = { λ _. None };

    ghost faults = { λ k. k.faults };

    fn next_id(&mut self, model: ModelNo) -> Result<u64, KeepFault>
        ensures fits { IfOk result Fits63 }
        ensures shut { IfSome self.old.shut (λ fault. IsErrOf result fault) }
        ensures same { self.new.shut ≡ self.old.shut }
        ensures counted { self.new.faults ≡ count_after (has_failed result) self.old.faults }
        ensures cause { HasCause self.old.faults self.new.faults (IsErrOf result KeepFault.Failed) }
    {
        let told = match &mut self.held {
            Ok(opened) => opened.next_id(model),
            Err(fault) => Err(*fault),
        };
        counted(told, &mut self.faults)
    }

    fn fetch(&mut self, model: ModelNo, id: RecId) -> Result<Option<KeptRow>, KeepFault>
        requires { Fits63 id.0 }
        ensures fits { IfOk result (λ row. IfSome row (IsAnswerOf id)) }
        ensures shut { IfSome self.old.shut (λ fault. IsErrOf result fault) }
        ensures same { self.new.shut ≡ self.old.shut }
        ensures counted { self.new.faults ≡ count_after (has_failed result) self.old.faults }
        ensures cause { HasCause self.old.faults self.new.faults (IsErrOf result KeepFault.Failed) }
    {
        let told = match &mut self.held {
            Ok(opened) => opened.fetch(model, id),
            Err(fault) => Err(*fault),
        };
        counted(told, &mut self.faults)
    }

    fn page(
        &mut self,
        model: ModelNo,
        after: RecId,
        most: u32,
    ) -> Result<Sequence<KeptRow>, KeepFault>
        requires { Fits63 after.0 }
        ensures fits { IfOk result (λ rows. IsPage after most (map (λ row. row.id) rows)
            × All (λ row. IsAnswerOf row.id row) rows) }
        ensures shut { IfSome self.old.shut (λ fault. IsErrOf result fault) }
        ensures same { self.new.shut ≡ self.old.shut }
        ensures counted { self.new.faults ≡ count_after (has_failed result) self.old.faults }
        ensures cause { HasCause self.old.faults self.new.faults (IsErrOf result KeepFault.Failed) }
    {
        let told = match &mut self.held {
            Ok(opened) => opened.page(model, after, most),
            Err(fault) => Err(*fault),
        };
        counted(told, &mut self.faults)
    }

    fn holders(
        &mut self,
        model: ModelNo,
        field: FieldNo,
        target: RecId,
        after: RecId,
        most: u32,
    ) -> Result<RefList, KeepFault>
        requires target { Fits63 target.0 }
        requires after { Fits63 after.0 }
        ensures fits { IfOk result (IsPage after most) }
        ensures shut { IfSome self.old.shut (λ fault. IsErrOf result fault) }
        ensures same { self.new.shut ≡ self.old.shut }
        ensures counted { self.new.faults ≡ count_after (has_failed result) self.old.faults }
        ensures cause { HasCause self.old.faults self.new.faults (IsErrOf result KeepFault.Failed) }
    {
        let told = match &mut self.held {
            Ok(opened) => opened.holders(model, field, target, after, most),
            Err(fault) => Err(*fault),
        };
        counted(told, &mut self.faults)
    }

    fn commit(&mut self, changes: &[Change]) -> Result<(), KeepFault>
        requires { All IsChangeFit changes.now }
        ensures shut { IfSome self.old.shut (λ fault. IsErrOf result fault) }
        ensures same { self.new.shut ≡ self.old.shut }
        ensures counted { self.new.faults ≡ count_after (has_failed result) self.old.faults }
        ensures cause { HasCause self.old.faults self.new.faults (IsErrOf result KeepFault.Failed) }
    {
        let told = match &mut self.held {
            Ok(opened) => opened.commit(changes),
            Err(fault) => Err(*fault),
        };
        counted(told, &mut self.faults)
    }
}
