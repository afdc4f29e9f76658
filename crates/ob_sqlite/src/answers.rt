//! What a statement answered, as a keeper answers it: each number is tested, and what no keeper
//! may answer is a failure. Nothing here asks the database.

ghost use Rattle.std.specs.Prelude.{◌≡◌, ◌<◌, pos, IfOk, OnOk};
ghost use Rattle.ob_io.specs.Store.{Fits63, IsPage};
ghost use Rattle.ob_sqlite.specs.Links.{AreLinks};

use crate::fault::fault_of;
use ob_base::{FieldNo, RecId, RefList, Sequence};
use ob_io::{KeepFault, Link};
use sqlite::Row;

/// Numbers that a keeper may answer are below this.
const LIMIT: u64 = 1 << 63;

/// A number as a parameter of a statement.
pub(crate) fn signed(number: u64) -> i64
    requires { Fits63 number }
    ensures { result ≡ pos number }
{
    number as i64
}

/// The number in this column.
pub(crate) fn number_at(row: &Row, column: usize) -> Result<u64, KeepFault>
    ensures { IfOk result Fits63 }
{
    let number: u64 = row.get(column).map_err(fault_of)?;
    if number < LIMIT {
        Ok(number)
    } else {
        Err(KeepFault::Failed)
    }
}

/// The bytes in this column.
pub(crate) fn bytes_at(row: &Row, column: usize) -> Result<Sequence<u8>, KeepFault> {
    Ok(Sequence::from_vec(row.get(column).map_err(fault_of)?))
}

/// The id in the first column, where it is above that one.
pub(crate) fn id_above(row: &Row, after: RecId) -> Result<RecId, KeepFault>
    ensures above { IfOk result (λ id. after.0 < id.0) }
    ensures fits { IfOk result (λ id. Fits63 id.0) }
{
    let id = number_at(row, 0)?;
    if id > after.0 {
        Ok(RecId(id))
    } else {
        Err(KeepFault::Failed)
    }
}

/// The ids in the first columns of the rows, which are above that one, rise, and are at most so
/// many.
pub(crate) fn ids_of(rows: &Vec<Row>, after: RecId, most: u32) -> Result<RefList, KeepFault>
    ensures { IfOk result (IsPage after most) }
{
    if rows.len() > most as usize {
        return Err(KeepFault::Failed);
    }
    let mut ids = RefList::new(*rows.allocator());
    let mut last = after;
    for row in rows.as_slice() {
        last = id_above(row, last)?;
        ids.push(last)?;
    }
    Ok(ids)
}

/// The links in the first two columns of the rows, which rise.
pub(crate) fn links_of(rows: &Vec<Row>) -> Result<Sequence<Link>, KeepFault>
    ensures { IfOk result AreLinks }
{
    let mut links = Sequence::new(*rows.allocator());
    for row in rows.as_slice() {
        push_link(&mut links, link_at(row)?)?;
    }
    Ok(links)
}

/// The link in the first two columns.
fn link_at(row: &Row) -> Result<Link, KeepFault>
    ensures { IfOk result (λ link. Fits63 link.target.0) }
{
    let field = u16::try_from(number_at(row, 0)?).map_err(|_| KeepFault::Failed)?;
    let target = number_at(row, 1)?;
    Ok(Link {
        field: FieldNo(field),
        target: RecId(target),
    })
}

/// Adds a link, where it is above the last.
fn push_link(links: &mut Sequence<Link>, link: Link) -> Result<(), KeepFault>
    requires links { AreLinks links.old }
    requires target { Fits63 link.target.0 }
    ensures { OnOk result (AreLinks links.new) }
{
    if let Some(before) = links.as_slice().last() {
        if *before >= link {
            return Err(KeepFault::Failed);
        }
    }
    links.push(link)?;
    Ok(())
}
