//! The tables and the index that the keeper makes, each by a statement of its own.
//!
//! `kept` has the bodies of rows by model and id, `link` that a row of the model names a target
//! by a field, `counter` the next ids that were set. A file that was made before has these: so a
//! change here is a change of what is kept.

use sqlite::{Alter, Connection, Error, ErrorCode, Transaction};

/// Makes what isn't there yet: all of it, or after an error nothing.
pub(crate) fn make_tables<S: Alter>(connection: &mut Connection<S>) -> Result<(), Error> {
    if !connection.is_autocommit() {
        return Err(Error::SqliteFailure(ErrorCode::TransactionState));
    }
    let mut transaction = connection.transaction();
    make_kept(&mut transaction)?;
    make_link(&mut transaction)?;
    make_counter(&mut transaction)?;
    make_link_row(&mut transaction)?;
    transaction.commit()
}

fn make_kept<S: Alter>(transaction: &mut Transaction<'_, S>) -> Result<usize, Error> {
    transaction.execute(
        "CREATE TABLE IF NOT EXISTS kept(model INTEGER, id INTEGER, body BLOB, PRIMARY KEY(model, id)) STRICT",
        &[],
    )
}

fn make_link<S: Alter>(transaction: &mut Transaction<'_, S>) -> Result<usize, Error> {
    transaction.execute(
        "CREATE TABLE IF NOT EXISTS link(model INTEGER, field INTEGER, target INTEGER, id INTEGER, PRIMARY KEY(model, field, target, id)) STRICT",
        &[],
    )
}

fn make_counter<S: Alter>(transaction: &mut Transaction<'_, S>) -> Result<usize, Error> {
    transaction.execute(
        "CREATE TABLE IF NOT EXISTS counter(model INTEGER PRIMARY KEY, next INTEGER) STRICT",
        &[],
    )
}

/// The index by which the links of a row are found.
fn make_link_row<S: Alter>(transaction: &mut Transaction<'_, S>) -> Result<usize, Error> {
    transaction.execute(
        "CREATE INDEX IF NOT EXISTS link_row ON link(model, id)",
        &[],
    )
}
