//! Rows as bytes. The form is stored and outlives the program: a change of it is a new
//! version. What it is stands in specs/KeptForm and specs/RowForm.

ghost use Rattle.std.specs.Prelude.{◌≡◌, ◌≢◌, ◌≤◌, ◌⊎◌, ◌++◌, List, length, filter, All, IfOk, OnOk, IsErrOf, Ok, Err};
ghost use Rattle.std.specs.List.{flat_map};
ghost use Rattle.ob_base.specs.declared.value.Value.{Value};
ghost use Rattle.ob_schema.specs.declared.info.FieldInfo.{FieldInfo};
ghost use Rattle.ob_schema.specs.Fields.{is_kept};
ghost use Rattle.ob_schema.specs.Models.{HasModel, kept_at};
ghost use Rattle.ob_codec.specs.KeptForm.{AreFields, Field, body_form, field_form};
ghost use Rattle.ob_codec.specs.KeptReading.{IsRowResult};
ghost use Rattle.ob_codec.specs.RowForm.{HoldAll, named, row_form};
ghost use Rattle.ob_codec.specs.RowReading.{body_row, body_values};

use crate::fault::RowFault;
use crate::kept_reading::fields_of;
use crate::kept_values::field_value;
use crate::kept_writing::{put_field, put_head};
use ob_base::{ModelNo, NoMemory, Sequence, Value};
use ob_schema::{FieldInfo, Schema};
use std::alloc::Global;

/// The body of a row of the model: its kept fields' values, in byte order of the fields'
/// names. Memory is all that can fail.
pub fn row_bytes(
    alloc: Global,
    schema: &Schema,
    model: ModelNo,
    values: &[Value],
) -> Result<Sequence<u8>, NoMemory>
    requires model { HasModel schema.now model }
    requires values { HoldAll (kept_at schema.now model) values.now }
    ensures { IfOk result (λ bytes. bytes ≡ row_form (kept_at schema.now model) values.now) }
{
    bytes_of_fields(alloc, schema.fields(model), values)
}

/// The values of the kept fields of the row that the bytes are the body of. `Bad` says
/// that they are no row's body; `NoMemory` may come with any bytes.
pub fn row_of(
    alloc: Global,
    schema: &Schema,
    model: ModelNo,
    bytes: &[u8],
) -> Result<Sequence<Value>, RowFault>
    requires { HasModel schema.now model }
    ensures ok { IfOk result (λ values. HoldAll (kept_at schema.now model) values
        × (bytes.now ≡ row_form (kept_at schema.now model) values)) }
    ensures bad { IsErrOf result RowFault.Bad → (values : List Value) →
        HoldAll (kept_at schema.now model) values →
        bytes.now ≢ row_form (kept_at schema.now model) values }
    ensures only { (values : List Value) → HoldAll (kept_at schema.now model) values →
        bytes.now ≡ row_form (kept_at schema.now model) values →
        (result ≡ Ok values) ⊎ (result ≡ Err RowFault.NoMemory) }
{
    row_of_fields(alloc, schema.fields(model), bytes)
}

/// Lists of values of the same fields that have one body are equal, whatever the fields
/// are.
pub fn one_row()
    ensures { (fields : List FieldInfo) (a b : List Value) →
        HoldAll fields a → HoldAll fields b → row_form fields a ≡ row_form fields b → a ≡ b }
{}

/// Lists of named values that have one body are equal, whatever the names and the values
/// are: so a body tells which fields its row has.
pub fn one_body()
    ensures { (a b : List Field) → AreFields a → AreFields b → body_form a ≡ body_form b → a ≡ b }
{}

/// The body of a row that has these values in the kept ones of these fields.
pub(crate) fn bytes_of_fields(
    alloc: Global,
    fields: &[FieldInfo],
    values: &[Value],
) -> Result<Sequence<u8>, NoMemory>
    requires few { length fields.now ≤ 256 }
    requires short { All (λ field. length field.name ≤ 64) fields.now }
    requires values { HoldAll (filter is_kept fields.now) values.now }
    ensures { IfOk result (λ bytes. bytes ≡ row_form (filter is_kept fields.now) values.now) }
{
    let mut out = Vec::new(alloc);
    put_head(&mut out, values.len() as u16)?;
    put_fields(&mut out, fields, values)?;
    Ok(Sequence::from_vec(out))
}

/// The kept ones of these fields, each with its value.
fn put_fields(out: &mut Vec<u8>, fields: &[FieldInfo], values: &[Value]) -> Result<(), NoMemory>
    requires short { All (λ field. length field.name ≤ 64) fields.now }
    requires values { HoldAll (filter is_kept fields.now) values.now }
    ensures { OnOk result (out.new.items ≡ out.old.items
        ++ flat_map field_form (named (filter is_kept fields.now) values.now)) }
{
    let mut left = values;
    for field in fields {
        if field.is_kept() {
            let [value, rest @ ..] = left else {
                unreachable!();
            };
            put_field(out, field.name.as_str().as_bytes(), value)?;
            left = rest;
        }
    }
    Ok(())
}

/// The values of the kept ones of these fields, from the whole of a body.
#[tactic(auto, unfolding(crate::specs::RowReading::body_row))]
pub(crate) fn row_of_fields(
    alloc: Global,
    fields: &[FieldInfo],
    body: &[u8],
) -> Result<Sequence<Value>, RowFault>
    ensures read { IsRowResult (λ values. values) result (body_row (filter is_kept fields.now) body.now) }
    ensures holds { IfOk result (λ values. HoldAll (filter is_kept fields.now) values) }
{
    let rest = fields_of(kept_count(fields), body)?;
    values_of(alloc, fields, rest)
}

fn kept_count(fields: &[FieldInfo]) -> usize
    ensures { result ≡ length (filter is_kept fields.now) }
{
    fields.iter().filter(|field| field.is_kept()).count()
}

/// The values of the kept ones of these fields one after the other, and nothing after them.
fn values_of(alloc: Global, fields: &[FieldInfo], bytes: &[u8]) -> Result<Sequence<Value>, RowFault>
    ensures { IsRowResult (λ values. values) result (body_values (filter is_kept fields.now) bytes.now) }
{
    let mut values = Sequence::new(alloc);
    let mut left = bytes;
    for field in fields {
        if field.is_kept() {
            let (value, rest) = field_value(alloc, field, left)?;
            values.push(value)?;
            left = rest;
        }
    }
    if left.is_empty() {
        Ok(values)
    } else {
        Err(RowFault::Bad)
    }
}
