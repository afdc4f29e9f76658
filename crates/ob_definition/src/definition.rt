//! What modules declare: one field for each key of a module file, with names as they
//! were written. A key that wasn't given is `None`, or an empty list. A new key of the
//! module format gets its field here, and its meaning in `info`.

ghost use Rattle.std.specs.Prelude.{◌≡◌, IfOk};
ghost use Rattle.ob_definition.specs.Definitions.{plain_field, plain_model};

use crate::field_type::{Choice, FieldType, OnDelete};
use ob_base::{NoMemory, Sequence, Value, Word};
use std::alloc::Global;

/// One `[[model]]` table: a new model, or what is added to one.
#[derive(Debug, Drop)]
pub struct ModelDef {
    /// The name of a new model: small letters, digits, `_` and `.`, a letter first, at
    /// most 64 bytes.
    pub name: Option<Word>,
    /// The model that is extended or copied.
    pub inherit: Option<Word>,
    /// The parents whose fields are delegated, each with its link.
    pub inherits: Sequence<Inherits>,
    /// The order of a search, such as `name, id desc`.
    pub order: Option<Word>,
    /// The many2one to the model itself that makes its rows a tree.
    pub parent: Option<Word>,
    /// Sets of plain fields that no two rows share.
    pub unique: Sequence<Sequence<Word>>,
    /// Conditions that each row meets.
    pub checks: Sequence<Check>,
    /// When a row may no longer be written.
    pub locked: Option<Word>,
    /// Whether calls may not create, write or delete its rows.
    pub managed: Option<bool>,
    /// The declared fields, in any order.
    pub fields: Sequence<FieldDef>,
}

/// A parent model, and the field that links to its row.
#[derive(Debug, Drop)]
pub struct Inherits {
    pub model: Word,
    pub link: Word,
}

/// A condition by name, as an expression.
#[derive(Debug, Drop)]
pub struct Check {
    pub name: Word,
    pub expression: Word,
}

/// One `[model.field.NAME]` table.
#[derive(Debug, Drop)]
pub struct FieldDef {
    /// Small letters, digits and `_`, a letter first, at most 64 bytes.
    pub name: Word,
    pub field_type: FieldType,
    /// The words that people see; the name where they aren't given.
    pub string: Option<Word>,
    pub required: Option<bool>,
    /// A constant of the type. A text that should be a date and isn't stays a text.
    pub default: Option<Value>,
    /// The expression of a computed field.
    pub compute: Option<Word>,
    /// The paths that the expression reads.
    pub depends: Option<Sequence<Word>>,
    /// Whether a computed field is kept.
    pub store: Option<bool>,
    /// Whether a computed field may read itself through its tree.
    pub recursive: Option<bool>,
    /// The path whose value a related field has.
    pub related: Option<Word>,
    /// The model whose rows a relation names.
    pub relation: Option<Word>,
    /// The many2one back, of a one2many.
    pub inverse: Option<Word>,
    /// The many2many back, of a many2many that isn't kept.
    pub mirror: Option<Word>,
    pub ondelete: Option<OnDelete>,
    /// The values of a selection.
    pub selection: Option<Sequence<Choice>>,
    /// The full names of the groups that may see the field.
    pub groups: Option<Sequence<Word>>,
    /// Whether calls may not give a value.
    pub managed: Option<bool>,
    /// Whether the value may not change.
    pub fixed: Option<bool>,
    /// Whether nobody may read it.
    pub secret: Option<bool>,
}

impl ModelDef {
    /// A new model with no key but its name, and no field.
    pub fn plain(alloc: Global, name: &str) -> Result<ModelDef, NoMemory>
        ensures { IfOk result (λ def. def ≡ plain_model name.now) }
    {
        Ok(ModelDef {
            name: Some(Word::from_text(alloc, name)?),
            inherit: None,
            inherits: Sequence::new(alloc),
            order: None,
            parent: None,
            unique: Sequence::new(alloc),
            checks: Sequence::new(alloc),
            locked: None,
            managed: None,
            fields: Sequence::new(alloc),
        })
    }
}

impl FieldDef {
    /// A field with no key but its type.
    pub fn plain(alloc: Global, name: &str, field_type: FieldType) -> Result<FieldDef, NoMemory>
        ensures { IfOk result (λ field. field ≡ plain_field name.now field_type) }
    {
        Ok(FieldDef {
            name: Word::from_text(alloc, name)?,
            field_type,
            string: None,
            required: None,
            default: None,
            compute: None,
            depends: None,
            store: None,
            recursive: None,
            related: None,
            relation: None,
            inverse: None,
            mirror: None,
            ondelete: None,
            selection: None,
            groups: None,
            managed: None,
            fixed: None,
            secret: None,
        })
    }
}
