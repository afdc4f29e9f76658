//! An open connection, and whether it can still be asked: the tables are made at the first call,
//! and one that leaves a transaction open spoils all that come.

ghost use Rattle.std.specs.Prelude.{◌≡◌, All, IfOk, IfSome, OnOk, map};
ghost use Rattle.ob_io.specs.Store.{Fits63, IsAnswerOf, IsChangeFit, IsPage};

use crate::fault::fault_of;
use crate::tables::make_tables;
use crate::{reading, writing};
use ob_base::{FieldNo, ModelNo, RecId, RefList, Sequence};
use ob_io::{Change, KeepFault, KeptRow};
use sqlite::{Alter, Connection, File, FileStore};

/// An open connection, and what its calls came to.
#[derive(Drop)]
pub(crate) struct Opened<S: Alter> {
    connection: Connection<S>,
    has_tables: bool,
    spoiled: bool,
}

impl<S: Alter> Opened<S> {
    /// Over this connection, of which nothing is known yet.
    pub(crate) fn new(connection: Connection<S>) -> Opened<S> {
        Opened {
            connection,
            has_tables: false,
            spoiled: false,
        }
    }

    /// The model's next id.
    pub(crate) fn next_id(&mut self, model: ModelNo) -> Result<u64, KeepFault>
        ensures { IfOk result Fits63 }
    {
        self.begin()?;
        let told = reading::next_id(&mut self.connection, model);
        self.end(told)
    }

    /// The row of this id, where it is kept.
    pub(crate) fn fetch(&mut self, model: ModelNo, id: RecId) -> Result<Option<KeptRow>, KeepFault>
        requires { Fits63 id.0 }
        ensures { IfOk result (λ row. IfSome row (IsAnswerOf id)) }
    {
        self.begin()?;
        let told = reading::fetch(&mut self.connection, model, id);
        self.end(told)
    }

    /// The first rows above that id, at most so many.
    pub(crate) fn page(
        &mut self,
        model: ModelNo,
        after: RecId,
        most: u32,
    ) -> Result<Sequence<KeptRow>, KeepFault>
        requires { Fits63 after.0 }
        ensures page { IfOk result (λ rows. IsPage after most (map (λ row. row.id) rows)) }
        ensures rows { IfOk result (All (λ row. IsAnswerOf row.id row)) }
    {
        self.begin()?;
        let told = reading::page(&mut self.connection, model, after, most);
        self.end(told)
    }

    /// The first ids above that one, at most so many, of rows with this link.
    pub(crate) fn holders(
        &mut self,
        model: ModelNo,
        field: FieldNo,
        target: RecId,
        after: RecId,
        most: u32,
    ) -> Result<RefList, KeepFault>
        requires target { Fits63 target.0 }
        requires after { Fits63 after.0 }
        ensures { IfOk result (IsPage after most) }
    {
        self.begin()?;
        let told = reading::holders(&mut self.connection, model, field, target, after, most);
        self.end(told)
    }

    /// Carries out the changes in order: all of them, or after a fault none.
    pub(crate) fn commit(&mut self, changes: &[Change]) -> Result<(), KeepFault>
        requires { All IsChangeFit changes.now }
    {
        self.begin()?;
        let told = writing::commit(&mut self.connection, changes).map_err(fault_of);
        self.end(told)
    }

    /// Makes the tables at the first call that can, and fails where the connection is spoiled.
    fn begin(&mut self) -> Result<(), KeepFault> {
        if self.spoiled {
            return Err(KeepFault::Failed);
        }
        if self.has_tables {
            return Ok(());
        }
        let made = make_tables(&mut self.connection).map_err(fault_of);
        self.has_tables = made.is_ok();
        self.end(made)
    }

    /// What the call came to, unless it left a transaction open: that spoils the connection.
    fn end<T: Drop>(&mut self, told: Result<T, KeepFault>) -> Result<T, KeepFault>
        ensures { OnOk result (result ≡ told) }
    {
        if self.connection.is_autocommit() {
            return told;
        }
        self.spoiled = true;
        Err(KeepFault::Failed)
    }
}

impl Opened<FileStore<File>> {
    /// Copies the log into the file, where the disk lets it.
    pub(crate) fn close(self) {
        let Opened {
            connection,
            has_tables: _,
            spoiled: _,
        } = self;
        let _ = connection.close();
    }
}
