//! Readers of a field's value by the field's type, each within what the field may hold.
//! Only texts are copied, and a list of ids, whose count is tested first. A new type gets
//! its reader here, and what it reads in specs/ValueReading.

ghost use Rattle.std.specs.Prelude.{◌≡◌, IfSome, is_some};
ghost use Rattle.std.specs.List.{list_any};
ghost use Rattle.std.specs.Str.{bytes_eq};
ghost use Rattle.ob_definition.specs.Values.{keys_of};
ghost use Rattle.ob_codec.specs.KeptReading.{IsRowResult};
ghost use Rattle.ob_codec.specs.RowReading.{body_field, body_tagged};
ghost use Rattle.ob_codec.specs.ValueReading.{body_content, body_flag, body_integer, body_word, body_key, body_day, body_moment, body_id, body_row_id, body_ids, body_rows};

use crate::fault::RowFault;
use crate::kept_form::{UNSET, has_unset, tag_of};
use crate::kept_reading::{byte_of, counted_of, named_field, text_of, u32_of, u64_of};
use ob_base::limits::{
    MAX_CHAR_BYTES, MAX_DAY, MAX_ID, MAX_MOMENT, MAX_TARGETS, MAX_TEXT_BYTES, MIN_DAY, MIN_MOMENT,
};
use ob_base::{RecId, RefList, Value, Word};
use ob_schema::{Choice, FieldInfo, FieldType};
use std::alloc::Global;

/// The value of a field, under the field's name.
#[tactic(auto, unfolding(crate::specs::RowReading::body_field))]
pub(crate) fn field_value<'a>(
    alloc: Global,
    field: &FieldInfo,
    bytes: &'a [u8],
) -> Result<(Value, &'a [u8]), RowFault>
    ensures { IsRowResult (λ x. (x.0, x.1.now)) result (body_field field.now bytes.now) }
{
    let (tag, content) = named_field(field.name.as_str().as_bytes(), bytes)?;
    tagged_value(alloc, field, tag, content)
}

/// The value after its tag.
#[tactic(auto, unfolding(crate::specs::RowReading::body_tagged))]
fn tagged_value<'a>(
    alloc: Global,
    field: &FieldInfo,
    tag: u8,
    bytes: &'a [u8],
) -> Result<(Value, &'a [u8]), RowFault>
    ensures { IsRowResult (λ x. (x.0, x.1.now)) result
        (body_tagged field.now.field_type field.now.selection tag bytes.now) }
{
    if tag == UNSET {
        if has_unset(field.field_type) {
            return Ok((Value::Nil, bytes));
        }
        return Err(RowFault::Bad);
    }
    if tag != tag_of(field.field_type) {
        return Err(RowFault::Bad);
    }
    content_value(alloc, field.field_type, field.selection.as_slice(), bytes)
}

/// A value that is set, by the field's type and the keys of a selection.
fn content_value<'a>(
    alloc: Global,
    field_type: FieldType,
    choices: &[Choice],
    bytes: &'a [u8],
) -> Result<(Value, &'a [u8]), RowFault>
    ensures { IsRowResult (λ x. (x.0, x.1.now)) result (body_content field_type choices.now bytes.now) }
{
    match field_type {
        FieldType::Boolean => flag_value(bytes),
        FieldType::Integer => integer_value(bytes),
        FieldType::Char => word_value(alloc, MAX_CHAR_BYTES, bytes),
        FieldType::Text => word_value(alloc, MAX_TEXT_BYTES, bytes),
        FieldType::Date => day_value(bytes),
        FieldType::Datetime => moment_value(bytes),
        FieldType::Selection => key_value(alloc, choices, bytes),
        FieldType::Many2one => row_value(bytes),
        FieldType::One2many => rows_value(alloc, MAX_ID as usize, bytes),
        FieldType::Many2many => rows_value(alloc, MAX_TARGETS, bytes),
    }
}

#[tactic(auto, unfolding(crate::specs::ValueReading::body_flag))]
fn flag_value(bytes: &[u8]) -> Result<(Value, &[u8]), RowFault>
    ensures { IsRowResult (λ x. (x.0, x.1.now)) result (body_flag bytes.now) }
{
    let (byte, rest) = byte_of(bytes)?;
    match byte {
        0 => Ok((Value::Bool(false), rest)),
        1 => Ok((Value::Bool(true), rest)),
        _ => Err(RowFault::Bad),
    }
}

#[tactic(auto, unfolding(crate::specs::ValueReading::body_integer))]
fn integer_value(bytes: &[u8]) -> Result<(Value, &[u8]), RowFault>
    ensures { IsRowResult (λ x. (x.0, x.1.now)) result (body_integer bytes.now) }
{
    let (number, rest) = u64_of(bytes)?;
    Ok((Value::Int(number.cast_signed()), rest))
}

/// A text of at most `limit` bytes.
#[tactic(auto, unfolding(crate::specs::ValueReading::body_word))]
fn word_value(alloc: Global, limit: usize, bytes: &[u8]) -> Result<(Value, &[u8]), RowFault>
    ensures { IsRowResult (λ x. (x.0, x.1.now)) result (body_word limit bytes.now) }
{
    match text_of(limit, bytes) {
        Ok((text, rest)) => Ok((Value::Word(Word::from_text(alloc, text)?), rest)),
        Err(fault) => Err(fault),
    }
}

/// One of the keys of a selection.
#[tactic(auto, unfolding(crate::specs::ValueReading::body_key))]
fn key_value<'a>(
    alloc: Global,
    choices: &[Choice],
    bytes: &'a [u8],
) -> Result<(Value, &'a [u8]), RowFault>
    ensures { IsRowResult (λ x. (x.0, x.1.now)) result (body_key choices.now bytes.now) }
{
    let (text, rest) = counted_of(MAX_CHAR_BYTES, bytes)?;
    match key_among(choices, text) {
        Some(key) => Ok((Value::Word(key.try_clone(alloc)?), rest)),
        None => Err(RowFault::Bad),
    }
}

/// The key that has these bytes.
fn key_among<'a>(choices: &'a [Choice], text: &[u8]) -> Option<&'a Word>
    ensures value { IfSome result (λ key. key.now ≡ text.now) }
    ensures found { is_some result ≡ list_any (bytes_eq text.now) (keys_of choices.now) }
{
    for choice in choices {
        if text == choice.key.as_str().as_bytes() {
            return Some(&choice.key);
        }
    }
    None
}

#[tactic(auto, unfolding(crate::specs::ValueReading::body_day))]
fn day_value(bytes: &[u8]) -> Result<(Value, &[u8]), RowFault>
    ensures { IsRowResult (λ x. (x.0, x.1.now)) result (body_day bytes.now) }
{
    let (number, rest) = u32_of(bytes)?;
    let day = number.cast_signed();
    if MIN_DAY <= day && day <= MAX_DAY {
        Ok((Value::Day(day), rest))
    } else {
        Err(RowFault::Bad)
    }
}

#[tactic(auto, unfolding(crate::specs::ValueReading::body_moment))]
fn moment_value(bytes: &[u8]) -> Result<(Value, &[u8]), RowFault>
    ensures { IsRowResult (λ x. (x.0, x.1.now)) result (body_moment bytes.now) }
{
    let (number, rest) = u64_of(bytes)?;
    let moment = number.cast_signed();
    if MIN_MOMENT <= moment && moment <= MAX_MOMENT {
        Ok((Value::Moment(moment), rest))
    } else {
        Err(RowFault::Bad)
    }
}

#[tactic(auto, unfolding(crate::specs::ValueReading::body_row_id))]
fn row_value(bytes: &[u8]) -> Result<(Value, &[u8]), RowFault>
    ensures { IsRowResult (λ x. (x.0, x.1.now)) result (body_row_id bytes.now) }
{
    let (id, rest) = id_of(0, bytes)?;
    Ok((Value::Ref(id), rest))
}

/// The rows of a list, no more than `limit`: their count in four bytes, and ids that rise.
#[tactic(auto, unfolding(crate::specs::ValueReading::body_rows))]
fn rows_value(alloc: Global, limit: usize, bytes: &[u8]) -> Result<(Value, &[u8]), RowFault>
    ensures { IsRowResult (λ x. (x.0, x.1.now)) result (body_rows limit bytes.now) }
{
    let (count, rest) = u32_of(bytes)?;
    if count as usize > limit {
        return Err(RowFault::Bad);
    }
    let (ids, rest) = ids_of(alloc, count, rest)?;
    Ok((Value::Refs(ids), rest))
}

/// So many ids that rise.
fn ids_of(alloc: Global, count: u32, bytes: &[u8]) -> Result<(RefList, &[u8]), RowFault>
    ensures { IsRowResult (λ x. (x.0, x.1.now)) result (body_ids count 0 bytes.now) }
{
    let mut ids = RefList::new(alloc);
    let mut before = 0;
    let mut left = bytes;
    for i in 0..count {
        let (id, rest) = id_of(before, left)?;
        ids.push(id)?;
        before = id.0;
        left = rest;
    }
    Ok((ids, left))
}

/// An id above this one.
#[tactic(auto, unfolding(crate::specs::ValueReading::body_id))]
fn id_of(before: u64, bytes: &[u8]) -> Result<(RecId, &[u8]), RowFault>
    ensures { IsRowResult (λ x. (x.0, x.1.now)) result (body_id before bytes.now) }
{
    let (number, rest) = u64_of(bytes)?;
    if before < number && number <= MAX_ID {
        Ok((RecId(number), rest))
    } else {
        Err(RowFault::Bad)
    }
}
