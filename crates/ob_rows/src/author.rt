//! Who makes or changes rows, and at which moment: the author, and what it stamps in them. A
//! further stamp is added here and in specs/Author.

ghost use Rattle.std.specs.Prelude.{◌≡◌};
ghost use Rattle.ob_rows.specs.Author.{is_stamp, stamp, tells_change, tells_making};
ghost use Rattle.ob_schema.specs.Models.{is_moment};

use ob_base::{RecId, Value};

/// Who makes or changes rows, and at which moment, in seconds from 1970-01-01 00:00:00 UTC.
#[derive(Clone, Copy)]
pub struct Author {
    pub user: RecId,
    pub now: i64,
}

/// Whether an author stamps a field of this name in a row that it changes, or makes (`made`): what
/// tells of its last change, and of a row that is made what tells of its making too.
pub fn is_stamp(made: bool, name: &str) -> bool
    ensures { result ≡ is_stamp made name.now }
{
    (made && tells_making(name)) || tells_change(name)
}

/// The value that an author stamps in a field of this name: the moment in a date, else the user.
pub fn stamp(author: Author, name: &str) -> Value
    ensures { result ≡ stamp author name.now }
{
    if is_date(name) {
        Value::Moment(author.now)
    } else {
        Value::Ref(author.user)
    }
}

/// Whether a field of this name tells of the making of a row: when, or by whom.
pub fn tells_making(name: &str) -> bool
    ensures { result ≡ tells_making name.now }
{
    name == "create_date" || name == "create_uid"
}

/// Whether a field of this name tells of the last change of a row: when, or by whom.
pub fn tells_change(name: &str) -> bool
    ensures { result ≡ tells_change name.now }
{
    name == "write_date" || name == "write_uid"
}

/// Whether a stamp is a moment.
fn is_date(name: &str) -> bool
    ensures { result ≡ is_moment name.now }
{
    name == "create_date" || name == "write_date"
}
