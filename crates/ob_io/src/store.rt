//! What a keeper keeps: rows as bytes with their links, and what changes them.

use ob_base::{FieldNo, ModelNo, RecId, Sequence};

/// That a row names another by a field. Links are ordered by field, then target.
#[derive(Clone, Copy, Debug, PartialEq, Eq, PartialOrd, Ord, Hash)]
pub struct Link {
    pub field: FieldNo,
    pub target: RecId,
}

/// A row as it is kept: its bytes, and the links by which it can be found.
#[derive(Debug, Drop)]
pub struct KeptRow {
    pub id: RecId,
    pub body: Sequence<u8>,
    pub links: Sequence<Link>,
}

/// One change of what is kept.
#[derive(Debug, Drop)]
pub enum Change {
    /// The row of this model and the row's id is this one from now on.
    Put { model: ModelNo, row: KeptRow },
    /// There is no such row from now on.
    Gone { model: ModelNo, id: RecId },
    /// The model's next id is this one from now on.
    Next { model: ModelNo, next: u64 },
}
