//! What a call does to rows, one row or cell at a time.

use ob_base::{Cell, FieldNo, ModelNo, RecId, Sequence, Value};

/// An edit of tables.
#[derive(Debug, Drop)]
pub enum Edit {
    /// A row is made with these values of its plain kept fields; of each field that isn't
    /// given it has 0, false, unset or the empty list. A row that is there is made anew.
    Make {
        model: ModelNo,
        id: RecId,
        values: Sequence<(FieldNo, Value)>,
    },
    /// A cell of a row that is there gets a value.
    Set {
        cell: Cell,
        value: Value,
    },
    /// A row goes, if it is there.
    Gone {
        model: ModelNo,
        id: RecId,
    },
}
