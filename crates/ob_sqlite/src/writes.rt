//! The statements that write, each in a function of its own with one call of the database.
//! They go through a transaction, which is undone where it ends before its commit.

ghost use Rattle.ob_io.specs.Store.{Fits63};

use crate::answers::signed;
use ob_base::{ModelNo, RecId};
use ob_io::Link;
use sqlite::{Alter, Error, Transaction, params};

/// The body of this row is that one from now on.
pub(crate) fn upsert_body<S: Alter>(
    transaction: &mut Transaction<'_, S>,
    model: ModelNo,
    id: RecId,
    body: &[u8],
) -> Result<usize, Error>
    requires { Fits63 id.0 }
{
    transaction.execute(
        "INSERT INTO kept(model, id, body) VALUES(?1, ?2, ?3) ON CONFLICT(model, id) DO UPDATE SET body = excluded.body",
        params![u32::from(model.0), signed(id.0), body],
    )
}

/// The next id of the model is this one from now on.
pub(crate) fn upsert_next<S: Alter>(
    transaction: &mut Transaction<'_, S>,
    model: ModelNo,
    next: u64,
) -> Result<usize, Error>
    requires { Fits63 next }
{
    transaction.execute(
        "INSERT INTO counter(model, next) VALUES(?1, ?2) ON CONFLICT(model) DO UPDATE SET next = excluded.next",
        params![u32::from(model.0), signed(next)],
    )
}

/// The row has this link, which it hadn't.
pub(crate) fn insert_link<S: Alter>(
    transaction: &mut Transaction<'_, S>,
    model: ModelNo,
    id: RecId,
    link: Link,
) -> Result<usize, Error>
    requires id { Fits63 id.0 }
    requires target { Fits63 link.target.0 }
{
    transaction.execute(
        "INSERT INTO link(model, field, target, id) VALUES(?1, ?2, ?3, ?4)",
        params![
            u32::from(model.0),
            u32::from(link.field.0),
            signed(link.target.0),
            signed(id.0)
        ],
    )
}

/// There is no body of this row from now on.
pub(crate) fn delete_body<S: Alter>(
    transaction: &mut Transaction<'_, S>,
    model: ModelNo,
    id: RecId,
) -> Result<usize, Error>
    requires { Fits63 id.0 }
{
    transaction.execute(
        "DELETE FROM kept WHERE model = ?1 AND id = ?2",
        params![u32::from(model.0), signed(id.0)],
    )
}

/// The row has no links from now on.
pub(crate) fn delete_links<S: Alter>(
    transaction: &mut Transaction<'_, S>,
    model: ModelNo,
    id: RecId,
) -> Result<usize, Error>
    requires { Fits63 id.0 }
{
    transaction.execute(
        "DELETE FROM link WHERE model = ?1 AND id = ?2",
        params![u32::from(model.0), signed(id.0)],
    )
}
