//! The plain values of a row, and what a field has without a value of its own.

ghost use Rattle.std.specs.Prelude.{◌≡◌, ◌≢◌, ◌≤◌, ℕ, [], All, IfOk, OnOk, Some, if◌then◌else◌, length};
ghost use Rattle.std.specs.BTreeMap as tree;
ghost use Rattle.std.specs.Ordering.{eq_by_cmp, nat_cmp};
ghost use Rattle.ob_base.specs.Limits.{max_fields};
ghost use Rattle.ob_base.specs.Rising.{IsRising};
ghost use Rattle.ob_schema.specs.Models.{IsCondition};
ghost use Rattle.ob_definition.specs.Values.{initial_value};
ghost use Rattle.ob_tables.specs.After.{row_of};
ghost use Rattle.ob_tables.specs.Fitting.{AreFitValues};
ghost use Rattle.ob_schema.specs.Plain.{targets_of};
ghost use Rattle.ob_tables.specs.Rooms.{shown_row};

use ob_base::{FieldNo, NoMemory, RecId, RefList, Value};
use ob_schema::{FieldType, ModelInfo};
use std::alloc::Global;
use std::collections::BTreeMap;

/// The plain values of a row, by the numbers of their fields.
pub(crate) type PlainRow = BTreeMap<u16, Value>;

/// A row of a model with these values; each plain kept field that isn't given is unset.
pub(crate) fn new_row(
    alloc: Global,
    info: &ModelInfo,
    values: &[(FieldNo, Value)],
) -> Result<PlainRow, NoMemory>
    requires few { length info.now.fields ≤ max_fields }
    requires conditions { All IsCondition info.now.hidden }
    requires fit { AreFitValues info.now values.now }
    ensures { IfOk result (λ row. shown_row row ≡ row_of info.now values.now) }
{
    let mut row = unset_row(alloc, info)?;
    for (field, value) in values {
        row.insert(field.0, value.try_clone(alloc)?)?;
    }
    Ok(row)
}

/// A row of a model without values.
fn unset_row(alloc: Global, info: &ModelInfo) -> Result<PlainRow, NoMemory>
    requires { length info.now.fields ≤ max_fields }
    ensures { IfOk result (λ row. shown_row row ≡ row_of info.now []) }
{
    let mut row = BTreeMap::new(alloc);
    for (place, field) in info.fields.as_slice().iter().enumerate() {
        if field.is_plain_kept() {
            row.insert(place as u16 + 1, initial_value(alloc, field.field_type))?;
        }
    }
    Ok(row)
}

/// What a field of a type has without a value of its own.
pub fn initial_value(alloc: Global, field_type: FieldType) -> Value
    ensures { result ≡ initial_value field_type }
{
    match field_type {
        FieldType::Boolean => Value::Bool(false),
        FieldType::Integer => Value::Int(0),
        FieldType::One2many | FieldType::Many2many => Value::Refs(RefList::new(alloc)),
        _ => Value::Nil,
    }
}

/// A row with another value of one field.
pub(crate) fn row_with(
    alloc: Global,
    row: &PlainRow,
    field: FieldNo,
    value: Value,
) -> Result<PlainRow, NoMemory>
    ensures { IfOk result (λ new. (number : ℕ) → tree.get nat_cmp new number
        ≡ (if eq_by_cmp nat_cmp field.0 number then Some value else tree.get nat_cmp row.now number)) }
{
    let mut new = copy_but(alloc, row, field)?;
    put_value(&mut new, field.0, value)?;
    Ok(new)
}

/// The same row again, but for one field, whose value may be long.
fn copy_but(alloc: Global, row: &PlainRow, field: FieldNo) -> Result<PlainRow, NoMemory>
    ensures { IfOk result (λ copy. (number : ℕ) → number ≢ field.0 → tree.get nat_cmp copy number ≡ tree.get nat_cmp row.now number) }
{
    let mut copy = BTreeMap::new(alloc);
    for (number, value) in row.iter() {
        if *number != field.0 {
            put_value(&mut copy, *number, value.try_clone(alloc)?)?;
        }
    }
    Ok(copy)
}

/// Puts a value into a row.
fn put_value(row: &mut PlainRow, field: u16, value: Value) -> Result<(), NoMemory>
    ensures { OnOk result ((number : ℕ) → tree.get nat_cmp row.new number
        ≡ (if eq_by_cmp nat_cmp field number then Some value else tree.get nat_cmp row.old number)) }
{
    row.insert(field, value)?;
    Ok(())
}

/// The rows that a value names.
pub fn targets_of(value: &Value) -> &[RecId]
    ensures same { result.now ≡ targets_of value.now }
    ensures rising { IsRising result.now }
{
    match value {
        Value::Ref(id) => std::slice::from_ref(id),
        Value::Refs(ids) => ids.as_slice(),
        _ => &[],
    }
}
