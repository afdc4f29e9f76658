//! The types of fields, after the Odoo 17 ORM's `fields` module. A new type gets its
//! variant here, and its values in `specs/Values`.

ghost use Rattle.std.specs.Prelude.{◌≡◌};
ghost use Rattle.ob_definition.specs.Types.{is_one2many, is_relation, is_list};
ghost use Rattle.ob_definition.specs.Keys.{is_many2many, is_many2one, is_selection};

use ob_base::Word;

/// The type of a field.
#[derive(Clone, Copy, Debug, PartialEq, Eq)]
pub enum FieldType {
    Boolean,
    Integer,
    /// A text of at most `MAX_CHAR_BYTES`.
    Char,
    /// A text of at most `MAX_TEXT_BYTES`.
    Text,
    Date,
    Datetime,
    /// One of the declared keys.
    Selection,
    /// A row of another model.
    Many2one,
    /// The rows whose inverse names the row.
    One2many,
    /// Rows of another model.
    Many2many,
}

impl FieldType {
    /// Whether its values name rows.
    pub fn is_relation(self) -> bool
        ensures { result ≡ is_relation self }
    {
        matches!(
            self,
            FieldType::Many2one | FieldType::One2many | FieldType::Many2many
        )
    }

    /// Whether its values are lists of rows.
    pub fn is_list(self) -> bool
        ensures { result ≡ is_list self }
    {
        matches!(self, FieldType::One2many | FieldType::Many2many)
    }

    /// Whether its values name a row of another model, or none.
    pub fn is_many2one(self) -> bool
        ensures { result ≡ is_many2one self }
    {
        matches!(self, FieldType::Many2one)
    }

    /// Whether its values are the rows whose inverse names the row.
    pub fn is_one2many(self) -> bool
        ensures { result ≡ is_one2many self }
    {
        matches!(self, FieldType::One2many)
    }

    /// Whether its values are lists of rows of another model that any row may share.
    pub fn is_many2many(self) -> bool
        ensures { result ≡ is_many2many self }
    {
        matches!(self, FieldType::Many2many)
    }

    /// Whether its values are declared keys.
    pub fn is_selection(self) -> bool
        ensures { result ≡ is_selection self }
    {
        matches!(self, FieldType::Selection)
    }
}

/// What becomes of a row whose many2one names a row that is deleted.
#[derive(Clone, Copy, Debug, PartialEq, Eq)]
pub enum OnDelete {
    /// The many2one is unset.
    SetNull,
    /// The deletion is refused.
    Restrict,
    /// The row is deleted too.
    Cascade,
}

/// A value that a selection may have, and the words that people see for it.
#[derive(Debug, Drop)]
pub struct Choice {
    pub key: Word,
    pub label: Word,
}
