//! The numbers that the kept form of a row is built from. Bodies that were written
//! outlive the program: none of these may ever change or be given again.

ghost use Rattle.std.specs.Prelude.{◌≡◌};
ghost use Rattle.ob_codec.specs.ValueReading.{tag_of, has_unset};

use ob_schema::FieldType;

/// The version of the form, the first byte of each body.
pub(crate) const VERSION: u8 = 1;

/// The tag of an unset field.
pub(crate) const UNSET: u8 = 0;

/// The tag of a boolean.
pub(crate) const BOOL: u8 = 1;

/// The tag of an integer.
pub(crate) const INT: u8 = 2;

/// The tag of a char, a text and a selection.
pub(crate) const TEXT: u8 = 3;

/// The tag of a date.
pub(crate) const DAY: u8 = 4;

/// The tag of a datetime.
pub(crate) const MOMENT: u8 = 5;

/// The tag of a many2one.
pub(crate) const REF: u8 = 6;

/// The tag of a list of rows.
pub(crate) const REFS: u8 = 7;

/// The tag of a value of the type that is set.
pub(crate) fn tag_of(field_type: FieldType) -> u8
    ensures { result ≡ tag_of field_type }
{
    match field_type {
        FieldType::Boolean => BOOL,
        FieldType::Integer => INT,
        FieldType::Char | FieldType::Text | FieldType::Selection => TEXT,
        FieldType::Date => DAY,
        FieldType::Datetime => MOMENT,
        FieldType::Many2one => REF,
        FieldType::One2many | FieldType::Many2many => REFS,
    }
}

/// Whether a value of the type may be unset.
pub(crate) fn has_unset(field_type: FieldType) -> bool
    ensures { result ≡ has_unset field_type }
{
    match field_type {
        FieldType::Char | FieldType::Text | FieldType::Selection => true,
        FieldType::Date | FieldType::Datetime | FieldType::Many2one => true,
        FieldType::Boolean | FieldType::Integer => false,
        FieldType::One2many | FieldType::Many2many => false,
    }
}
