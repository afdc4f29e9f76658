//! Which keys of a field fit its type and one another. A new key of the module format
//! gets its rule here, and in `specs/Keys`.

ghost use Rattle.std.specs.Prelude.{◌≡◌};
ghost use Rattle.std.specs.List.{list_any};
ghost use Rattle.std.specs.Str.{bytes_eq};
ghost use Rattle.ob_definition.specs.Definitions.{is_computed, is_set};
ghost use Rattle.ob_definition.specs.Keys.{computed_fits, default_fits, fits, has_choice_key, is_constant, ondelete_fits, plain_fits, relation_fits};

use crate::definition::FieldDef;
use crate::field_type::{Choice, FieldType};
use ob_base::Value;
use ob_base::limits::{MAX_CHAR_BYTES, MAX_DAY, MAX_MOMENT, MAX_TEXT_BYTES, MIN_DAY, MIN_MOMENT};

/// Whether an expression or a path gives the field's value.
pub fn is_computed(field: &FieldDef) -> bool
    ensures { result ≡ is_computed field.now }
{
    field.compute.is_some() || field.related.is_some()
}

/// Whether a key that is a flag is given and true.
pub fn is_set(flag: Option<bool>) -> bool
    ensures { result ≡ is_set flag }
{
    flag.unwrap_or(false)
}

/// Whether the keys fit the field's type and one another.
pub fn fits(field: &FieldDef) -> bool
    ensures { result ≡ fits field.now }
{
    relation_fits(field)
        && ondelete_fits(field)
        && if is_computed(field) {
            computed_fits(field)
        } else {
            plain_fits(field)
        }
}

/// Whether relations alone name a model, a one2many its inverse, a many2many its mirror
/// and a selection its keys.
fn relation_fits(field: &FieldDef) -> bool
    ensures { result ≡ relation_fits field.now }
{
    let field_type = field.field_type;
    field.relation.is_some() == field_type.is_relation()
        && field.inverse.is_some() == field_type.is_one2many()
        && (field.mirror.is_none() || field_type.is_many2many())
        && field.selection.is_some() == field_type.is_selection()
}

/// Whether a plain many2one alone says what becomes of its row.
fn ondelete_fits(field: &FieldDef) -> bool
    ensures { result ≡ ondelete_fits field.now }
{
    field.ondelete.is_none() || (field.field_type.is_many2one() && !is_computed(field))
}

/// Whether a computed field has one expression or one path, and none of a plain
/// field's keys.
fn computed_fits(field: &FieldDef) -> bool
    ensures { result ≡ computed_fits field.now }
{
    (field.related.is_none() || (field.compute.is_none() && field.depends.is_none()))
        && !is_set(field.required)
        && !field.field_type.is_relation()
        && !field.field_type.is_selection()
        && field.default.is_none()
}

/// Whether a plain field has none of a computed field's keys, and a fitting default.
fn plain_fits(field: &FieldDef) -> bool
    ensures { result ≡ plain_fits field.now }
{
    field.depends.is_none()
        && field.store.is_none()
        && field.recursive.is_none()
        && default_fits(field)
}

/// Whether a default, where there is one, is a constant of the type.
fn default_fits(field: &FieldDef) -> bool
    ensures { result ≡ default_fits field.now }
{
    match &field.default {
        Some(value) => is_constant(field, value),
        None => true,
    }
}

/// Whether a value is a constant of the field's type, within its limits.
fn is_constant(field: &FieldDef, value: &Value) -> bool
    ensures { result ≡ is_constant field.now.field_type field.now.selection value.now }
{
    match (field.field_type, value) {
        (FieldType::Boolean, Value::Bool(_)) | (FieldType::Integer, Value::Int(_)) => true,
        (FieldType::Char, Value::Word(text)) => text.len() <= MAX_CHAR_BYTES,
        (FieldType::Text, Value::Word(text)) => text.len() <= MAX_TEXT_BYTES,
        (FieldType::Date, Value::Day(day)) => MIN_DAY <= *day && *day <= MAX_DAY,
        (FieldType::Datetime, Value::Moment(moment)) => {
            MIN_MOMENT <= *moment && *moment <= MAX_MOMENT
        }
        (FieldType::Selection, Value::Word(text)) => {
            text.len() <= MAX_CHAR_BYTES && has_choice_key(field, text.as_str())
        }
        _ => false,
    }
}

/// Whether a text is one of the field's keys.
#[tactic(auto, using(crate::proofs::ListTests::any_key))]
fn has_choice_key(field: &FieldDef, text: &str) -> bool
    ensures { result ≡ has_choice_key field.now.selection text.now }
{
    match &field.selection {
        Some(choices) => is_one_of(choices.as_slice(), text),
        None => false,
    }
}

fn is_one_of(choices: &[Choice], text: &str) -> bool
    ensures { result ≡ list_any (λ choice. bytes_eq text.now choice.key) choices.now }
{
    choices.iter().any(|choice| text == choice.key.as_str())
}
