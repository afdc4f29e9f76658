//! Rows that modules bring, with every name resolved: what a new store gets before its first
//! call. A further kind of value that a module may give is added here.

use ob_base::{FieldNo, ModelNo, Sequence, Value, Word};

/// The rows that modules bring, in the order in which they are made: those of `res.groups`
/// first, one for each group.
#[derive(Debug, Drop)]
pub struct Preset {
    pub rows: Sequence<PresetRow>,
}

/// A row that a module brings.
#[derive(Debug, Drop)]
pub struct PresetRow {
    /// The module's name.
    pub module: Word,
    /// Where the row stands in the module: `group.I` or `row.I`.
    pub place: Word,
    pub model: ModelNo,
    /// The values that it gives to fields of its model, each field once.
    pub values: Sequence<(FieldNo, PresetValue)>,
}

/// A value that a module gives to a field of a row.
#[derive(Debug, Drop)]
pub enum PresetValue {
    /// A value of its own, for a field that is no relation.
    Plain(Value),
    /// An earlier row, by its number from 0, for a many2one.
    Row(u32),
    /// Earlier rows, by their numbers, for a many2many.
    Rows(Sequence<u32>),
}
