//! The commit of a keeper, over an open connection: one transaction, in which the changes are
//! carried out in order.

ghost use Rattle.std.specs.Prelude.{All};
ghost use Rattle.ob_io.specs.Store.{Fits63, IsChangeFit, IsRowFit};

use crate::writes::{delete_body, delete_links, insert_link, upsert_body, upsert_next};
use ob_base::{ModelNo, RecId};
use ob_io::{Change, KeptRow};
use sqlite::{Alter, Connection, Error, ErrorCode, Transaction};

/// Carries out the changes in order: all of them, or after an error none.
pub(crate) fn commit<S: Alter>(
    connection: &mut Connection<S>,
    changes: &[Change],
) -> Result<(), Error>
    requires { All IsChangeFit changes.now }
{
    if !connection.is_autocommit() {
        return Err(Error::SqliteFailure(ErrorCode::TransactionState));
    }
    let mut transaction = connection.transaction();
    carry_out_all(&mut transaction, changes)?;
    transaction.commit()
}

fn carry_out_all<S: Alter>(
    transaction: &mut Transaction<'_, S>,
    changes: &[Change],
) -> Result<(), Error>
    requires { All IsChangeFit changes.now }
{
    for change in changes {
        carry_out(transaction, change)?;
    }
    Ok(())
}

fn carry_out<S: Alter>(transaction: &mut Transaction<'_, S>, change: &Change) -> Result<(), Error>
    requires { IsChangeFit change.now }
{
    match change {
        Change::Put { model, row } => put(transaction, *model, row),
        Change::Gone { model, id } => drop_row(transaction, *model, *id),
        Change::Next { model, next } => {
            upsert_next(transaction, *model, *next)?;
            Ok(())
        }
    }
}

/// The row is this one from now on, with these links alone.
fn put<S: Alter>(
    transaction: &mut Transaction<'_, S>,
    model: ModelNo,
    row: &KeptRow,
) -> Result<(), Error>
    requires { IsRowFit row.now }
{
    upsert_body(transaction, model, row.id, row.body.as_slice())?;
    delete_links(transaction, model, row.id)?;
    for link in row.links.as_slice() {
        insert_link(transaction, model, row.id, *link)?;
    }
    Ok(())
}

/// There is no such row from now on, and no link of it.
fn drop_row<S: Alter>(
    transaction: &mut Transaction<'_, S>,
    model: ModelNo,
    id: RecId,
) -> Result<(), Error>
    requires { Fits63 id.0 }
{
    delete_body(transaction, model, id)?;
    delete_links(transaction, model, id)?;
    Ok(())
}
