//! The statements that read, each in a function of its own with one call of the database.

ghost use Rattle.ob_io.specs.Store.{Fits63};

use crate::answers::signed;
use ob_base::{FieldNo, ModelNo, RecId};
use sqlite::{Alter, Connection, Error, Row, params};

/// The next id of the model, where one was set.
pub(crate) fn select_next<S: Alter>(
    connection: &mut Connection<S>,
    model: ModelNo,
) -> Result<Vec<Row>, Error> {
    connection.query_all(
        "SELECT next FROM counter WHERE model = ?1",
        params![u32::from(model.0)],
    )
}

/// The body of the row, where it is kept.
pub(crate) fn select_body<S: Alter>(
    connection: &mut Connection<S>,
    model: ModelNo,
    id: RecId,
) -> Result<Vec<Row>, Error>
    requires { Fits63 id.0 }
{
    connection.query_all(
        "SELECT body FROM kept WHERE model = ?1 AND id = ?2",
        params![u32::from(model.0), signed(id.0)],
    )
}

/// The fields and targets of the row's links, rising.
pub(crate) fn select_links<S: Alter>(
    connection: &mut Connection<S>,
    model: ModelNo,
    id: RecId,
) -> Result<Vec<Row>, Error>
    requires { Fits63 id.0 }
{
    connection.query_all(
        "SELECT field, target FROM link WHERE model = ?1 AND id = ?2 ORDER BY field, target",
        params![u32::from(model.0), signed(id.0)],
    )
}

/// The ids and bodies of the first rows above that id, at most so many, rising.
pub(crate) fn select_page<S: Alter>(
    connection: &mut Connection<S>,
    model: ModelNo,
    after: RecId,
    most: u32,
) -> Result<Vec<Row>, Error>
    requires { Fits63 after.0 }
{
    connection.query_all(
        "SELECT id, body FROM kept WHERE model = ?1 AND id > ?2 ORDER BY id LIMIT ?3",
        params![u32::from(model.0), signed(after.0), most],
    )
}

/// The ids of the first rows above that id with this link, at most so many, rising.
pub(crate) fn select_holders<S: Alter>(
    connection: &mut Connection<S>,
    model: ModelNo,
    field: FieldNo,
    target: RecId,
    after: RecId,
    most: u32,
) -> Result<Vec<Row>, Error>
    requires target { Fits63 target.0 }
    requires after { Fits63 after.0 }
{
    connection.query_all(
        "SELECT id FROM link WHERE model = ?1 AND field = ?2 AND target = ?3 AND id > ?4 ORDER BY id LIMIT ?5",
        params![
            u32::from(model.0),
            u32::from(field.0),
            signed(target.0),
            signed(after.0),
            most
        ],
    )
}
