//! Which edits may be asked for: the test of what `after` wants of its caller. A new type of
//! field gets its values here, as `specs/Values` of ob_definition has them.

ghost use Rattle.std.specs.Prelude.{◌≡◌, ◌≤◌, ◌≢◌, ◌↔◌, All, IsTrue};
ghost use Rattle.std.specs.List.{AllPairs, list_any};
ghost use Rattle.std.specs.Str.{bytes_eq};
ghost use Rattle.ob_base.specs.Limits.{max_fields};
ghost use Rattle.ob_base.specs.declared.value.Value.TheVariants as values;
ghost use Rattle.ob_schema.specs.Models.{FieldHas};
ghost use Rattle.ob_tables.specs.Fitting.{AreFitIn, IsFitEdit, IsFitId, IsFitIn};
ghost use Rattle.ob_schema.specs.Fields.{IsGivable};

use crate::edit::Edit;
use ob_base::limits::{
    MAX_CHAR_BYTES, MAX_DAY, MAX_FIELDS, MAX_MOMENT, MAX_TEXT_BYTES, MIN_DAY, MIN_MOMENT,
};
use ob_base::{FieldNo, ModelNo, RecId, Value};
use ob_schema::{Choice, FieldInfo, FieldType, Schema};

/// A mark for each number of a field, from 0.
const MARKS: usize = MAX_FIELDS + 1;

/// Whether an edit may be asked for: its model is there, its values are of plain kept fields
/// of the model, a Make's of each at most once, and there is an id above its own.
pub fn fits(schema: &Schema, edit: &Edit) -> bool
    ensures fit { IsTrue result → IsFitEdit schema.now edit.now }
    ensures only { IsFitEdit schema.now edit.now → IsTrue result }
{
    match edit {
        Edit::Make { model, id, values } => {
            is_fit_id(*id) && are_fit_in(schema, *model, values.as_slice())
        }
        Edit::Set { cell, value } => {
            is_fit_id(cell.id) && is_fit_at(schema, cell.model, cell.field, value)
        }
        Edit::Gone { model, id } => is_fit_id(*id) && schema.find_model(*model).is_some(),
    }
}

/// Whether there is an id above this one.
fn is_fit_id(id: RecId) -> bool
    ensures { IsTrue result ↔ IsFitId id }
{
    id.0 < u64::MAX
}

/// Whether values are of fields of a model that is there, of each at most one.
fn are_fit_in(schema: &Schema, model: ModelNo, values: &[(FieldNo, Value)]) -> bool
    ensures { IsTrue result ↔ AreFitIn schema.now model values.now }
{
    if schema.find_model(model).is_none() {
        return false;
    }
    // The registry's law: a model's fields are few, and its conditions are no plain fields.
    let _ = schema.model_info(model);
    are_of_fields(schema, model, values) && are_apart(values)
}

/// Whether each value may be given for its field.
fn are_of_fields(schema: &Schema, model: ModelNo, values: &[(FieldNo, Value)]) -> bool
    ensures { IsTrue result ↔ All (λ given. FieldHas schema.now (λ field. IsFitIn field given.1) model given.0) values.now }
{
    values
        .iter()
        .all(|(field, value)| is_fit_at(schema, model, *field, value))
}

/// Whether no field is given twice, by a mark for each that was met.
fn are_apart(values: &[(FieldNo, Value)]) -> bool
    requires { All (λ given. given.0.0 ≤ max_fields) values.now }
    ensures { IsTrue result ↔ AllPairs (λ a b. a.0 ≢ b.0) values.now }
{
    let mut met = [false; MARKS];
    for (field, _) in values {
        let place = usize::from(field.0);
        if met[place] {
            return false;
        }
        met[place] = true;
    }
    true
}

/// Whether a value may be given for a field of a model, by its number.
fn is_fit_at(schema: &Schema, model: ModelNo, field: FieldNo, value: &Value) -> bool
    ensures { IsTrue result ↔ FieldHas schema.now (λ info. IsFitIn info value.now) model field }
{
    match schema.find_field(model, field) {
        Some(info) => is_fit_in(info, value),
        None => false,
    }
}

/// Whether a value may be given for a field, and rows keep it.
fn is_fit_in(field: &FieldInfo, value: &Value) -> bool
    ensures { IsTrue result ↔ IsFitIn field.now value.now }
{
    field.is_plain_kept() && is_givable(field, value)
}

/// Whether a value is of a field's type and within its limits, whatever ids it names.
pub fn is_givable(field: &FieldInfo, value: &Value) -> bool
    ensures { IsTrue result ↔ IsGivable field.now value.now }
{
    match value {
        Value::Nil => may_be_unset(field),
        Value::Bool(_) => matches!(field.field_type, FieldType::Boolean),
        Value::Int(number) => {
            // An integer of the program fits 64 bits.
            let _number = *number;
            matches!(field.field_type, FieldType::Integer)
        }
        Value::Word(text) => has_text(field, text.as_str()),
        Value::Day(day) => has_day(field, *day),
        Value::Moment(moment) => has_moment(field, *moment),
        Value::Ref(_) => field.field_type.is_many2one(),
        Value::Refs(ids) => {
            // The law of these lists: they rise.
            let _ = ids.as_slice();
            field.field_type.is_list()
        }
    }
}

/// Whether a field may be unset.
fn may_be_unset(field: &FieldInfo) -> bool
    ensures { IsTrue result ↔ IsGivable field.now values.Nil }
{
    match field.field_type {
        FieldType::Boolean | FieldType::Integer | FieldType::One2many | FieldType::Many2many =>
            false,
        _ => true,
    }
}

/// Whether a text is one of a field's.
fn has_text(field: &FieldInfo, text: &str) -> bool
    ensures { IsTrue result ↔ IsGivable field.now (values.Word text.now) }
{
    match field.field_type {
        FieldType::Char => text.len() <= MAX_CHAR_BYTES,
        FieldType::Text => text.len() <= MAX_TEXT_BYTES,
        FieldType::Selection => {
            text.len() <= MAX_CHAR_BYTES && is_key(field.selection.as_slice(), text)
        }
        _ => false,
    }
}

/// Whether one of the choices has the key.
fn is_key(choices: &[Choice], text: &str) -> bool
    ensures { result ≡ list_any (λ choice. bytes_eq text.now choice.key) choices.now }
{
    choices.iter().any(|choice| text == choice.key.as_str())
}

/// Whether a day is one of a field's.
fn has_day(field: &FieldInfo, day: i32) -> bool
    ensures { IsTrue result ↔ IsGivable field.now (values.Day day) }
{
    match field.field_type {
        FieldType::Date => MIN_DAY <= day && day <= MAX_DAY,
        _ => false,
    }
}

/// Whether a moment is one of a field's.
fn has_moment(field: &FieldInfo, moment: i64) -> bool
    ensures { IsTrue result ↔ IsGivable field.now (values.Moment moment) }
{
    match field.field_type {
        FieldType::Datetime => MIN_MOMENT <= moment && moment <= MAX_MOMENT,
        _ => false,
    }
}
