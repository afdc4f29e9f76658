//! The reading calls of a keeper, over an open connection.

ghost use Rattle.std.specs.Prelude.{All, IfOk, IfSome, map};
ghost use Rattle.ob_io.specs.Store.{Fits63, IsAnswerOf, IsPage};

use crate::answers::{bytes_at, id_above, ids_of, links_of, number_at};
use crate::fault::fault_of;
use crate::selects::{select_body, select_holders, select_links, select_next, select_page};
use ob_base::{FieldNo, ModelNo, RecId, RefList, Sequence};
use ob_io::{KeepFault, KeptRow};
use sqlite::{Alter, Connection};

/// The model's next id, 1 where none was set.
pub(crate) fn next_id<S: Alter>(
    connection: &mut Connection<S>,
    model: ModelNo,
) -> Result<u64, KeepFault>
    ensures { IfOk result Fits63 }
{
    let rows = select_next(connection, model).map_err(fault_of)?;
    match rows.as_slice().first() {
        Some(row) => number_at(row, 0),
        None => Ok(1),
    }
}

/// The row of this id, where it is kept.
pub(crate) fn fetch<S: Alter>(
    connection: &mut Connection<S>,
    model: ModelNo,
    id: RecId,
) -> Result<Option<KeptRow>, KeepFault>
    requires { Fits63 id.0 }
    ensures { IfOk result (λ row. IfSome row (IsAnswerOf id)) }
{
    let rows = select_body(connection, model, id).map_err(fault_of)?;
    match rows.as_slice().first() {
        Some(row) => Ok(Some(with_links(connection, model, id, bytes_at(row, 0)?)?)),
        None => Ok(None),
    }
}

/// The first rows above that id, at most so many.
pub(crate) fn page<S: Alter>(
    connection: &mut Connection<S>,
    model: ModelNo,
    after: RecId,
    most: u32,
) -> Result<Sequence<KeptRow>, KeepFault>
    requires { Fits63 after.0 }
    ensures page { IfOk result (λ rows. IsPage after most (map (λ row. row.id) rows)) }
    ensures rows { IfOk result (All (λ row. IsAnswerOf row.id row)) }
{
    let found = select_page(connection, model, after, most).map_err(fault_of)?;
    if found.len() > most as usize {
        return Err(KeepFault::Failed);
    }
    let mut rows = Sequence::new(*found.allocator());
    let mut last = after;
    for row in found.as_slice() {
        last = id_above(row, last)?;
        rows.push(with_links(connection, model, last, bytes_at(row, 1)?)?)?;
    }
    Ok(rows)
}

/// The first ids above that one, at most so many, of rows with this link.
pub(crate) fn holders<S: Alter>(
    connection: &mut Connection<S>,
    model: ModelNo,
    field: FieldNo,
    target: RecId,
    after: RecId,
    most: u32,
) -> Result<RefList, KeepFault>
    requires target { Fits63 target.0 }
    requires after { Fits63 after.0 }
    ensures { IfOk result (IsPage after most) }
{
    let rows = select_holders(connection, model, field, target, after, most).map_err(fault_of)?;
    ids_of(&rows, after, most)
}

/// The row of this id and body, with the links that are kept of it.
fn with_links<S: Alter>(
    connection: &mut Connection<S>,
    model: ModelNo,
    id: RecId,
    body: Sequence<u8>,
) -> Result<KeptRow, KeepFault>
    requires { Fits63 id.0 }
    ensures { IfOk result (IsAnswerOf id) }
{
    let rows = select_links(connection, model, id).map_err(fault_of)?;
    let links = links_of(&rows)?;
    Ok(KeptRow { id, body, links })
}
