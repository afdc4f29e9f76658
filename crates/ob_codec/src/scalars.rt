//! Values that are no lists, from JSON. What each type takes stands in specs/JsonForm: a
//! new type gets its arms here, and its forms there.

ghost use Rattle.std.specs.Prelude.{◌≡◌, false, IfOk, List};
ghost use Rattle.std.specs.List.{list_any};
ghost use Rattle.std.specs.Str.{bytes_eq};
ghost use Rattle.serde_json.specs.View.{view, number_view};
ghost use Rattle.ob_definition.specs.Types.{is_list};
ghost use Rattle.ob_definition.specs.Values.{IsKey, IsText, IsValueOf, initial_value, keys_of};
ghost use Rattle.ob_definition.specs.declared.field_type.Choice.{Choice};
ghost use Rattle.ob_codec.specs.JsonForm.{integer_of, key_of, number_value, spelled};
ghost use Rattle.ob_codec.specs.JsonForm.{text_of, text_value, true_value, value_from};
ghost use Rattle.ob_codec.specs.Steps.{IsCodecResult};

use crate::elements::id_of_number;
use crate::fault::CodecFault;
use crate::input::Json;
use crate::place::{range, shape};
use ob_base::limits::{MAX_CHAR_BYTES, MAX_TEXT_BYTES};
use ob_base::{Place, Value, Word};
use ob_dates::{day_of, moment_of};
use ob_schema::{Choice, FieldType};
use serde_json::Number;
use std::alloc::Global;

/// The value that JSON gives a field of a type that is no list, with these choices where
/// it is a selection.
#[tactic(auto, unfolding(crate::specs::JsonForm::value_from))]
pub(crate) fn value_of(
    alloc: Global,
    field_type: FieldType,
    choices: &[Choice],
    json: &Json,
) -> Result<Value, CodecFault>
    requires { is_list field_type ≡ false }
    ensures form { IsCodecResult (λ v. v) result (value_from field_type choices.now (view json.now)) }
    ensures holds { IfOk result (IsValueOf field_type choices.now) }
{
    match json {
        Json::Null | Json::Bool(false) => Ok(initial_value(field_type)),
        Json::Bool(true) => true_value(alloc, field_type),
        Json::Number(number) => number_value(alloc, field_type, number),
        Json::String(text) => text_value(alloc, field_type, choices, text.as_str()),
        Json::Array(_) | Json::Object(_) => Err(shape(alloc, &[])),
    }
}

/// What `false` and `null` stand for.
fn initial_value(field_type: FieldType) -> Value
    requires { is_list field_type ≡ false }
    ensures { result ≡ initial_value field_type }
{
    match field_type {
        FieldType::Boolean => Value::Bool(false),
        FieldType::Integer => Value::Int(0),
        _ => Value::Nil,
    }
}

/// What `true` stands for.
#[tactic(auto, unfolding(crate::specs::JsonForm::true_value))]
fn true_value(alloc: Global, field_type: FieldType) -> Result<Value, CodecFault>
    ensures form { IsCodecResult (λ v. v) result (true_value field_type) }
    ensures holds { IfOk result (λ v. (choices : List Choice) → IsValueOf field_type choices v) }
{
    match field_type {
        FieldType::Boolean => Ok(Value::Bool(true)),
        _ => Err(shape(alloc, &[])),
    }
}

/// What a number stands for.
#[tactic(auto, unfolding(crate::specs::JsonForm::number_value))]
fn number_value(alloc: Global, field_type: FieldType, number: &Number) -> Result<Value, CodecFault>
    ensures form { IsCodecResult (λ v. v) result (number_value field_type (number_view number.now)) }
    ensures holds { IfOk result (λ v. (choices : List Choice) → IsValueOf field_type choices v) }
{
    match field_type {
        FieldType::Integer => Ok(Value::Int(integer_of(alloc, number)?)),
        FieldType::Many2one => Ok(Value::Ref(id_of_number(alloc, &[], number)?)),
        _ => Err(shape(alloc, &[])),
    }
}

/// An integer of 64 bits.
#[tactic(auto, unfolding(crate::specs::JsonForm::integer_of))]
fn integer_of(alloc: Global, number: &Number) -> Result<i64, CodecFault>
    ensures { IsCodecResult (λ z. z) result (integer_of (number_view number.now)) }
{
    match number.as_i64() {
        Some(integer) => Ok(integer),
        None if number.is_f64() => Err(shape(alloc, &[])),
        None => Err(range(alloc, &[])),
    }
}

/// What a text stands for.
#[tactic(auto, unfolding(crate::specs::JsonForm::text_value))]
fn text_value(
    alloc: Global,
    field_type: FieldType,
    choices: &[Choice],
    text: &str,
) -> Result<Value, CodecFault>
    ensures form { IsCodecResult (λ v. v) result (text_value field_type choices.now text.now) }
    ensures holds { IfOk result (IsValueOf field_type choices.now) }
{
    match field_type {
        FieldType::Char => Ok(Value::Word(text_of(alloc, MAX_CHAR_BYTES, text)?)),
        FieldType::Text => Ok(Value::Word(text_of(alloc, MAX_TEXT_BYTES, text)?)),
        FieldType::Date => Ok(Value::Day(spelled(alloc, day_of(text))?)),
        FieldType::Datetime => Ok(Value::Moment(spelled(alloc, moment_of(text))?)),
        FieldType::Selection => Ok(Value::Word(key_of(alloc, choices, text)?)),
        _ => Err(shape(alloc, &[])),
    }
}

/// A text of so many bytes at most.
#[tactic(auto, unfolding(crate::specs::JsonForm::text_of))]
fn text_of(alloc: Global, limit: usize, text: &str) -> Result<Word, CodecFault>
    ensures form { IsCodecResult (λ word. word) result (text_of limit text.now) }
    ensures holds { IfOk result (IsText limit) }
{
    if text.len() > limit {
        return Err(range(alloc, &[]));
    }
    Ok(Word::from_text(alloc, text)?)
}

/// One of the keys of a selection, within the limit of a char.
#[tactic(auto, using(crate::proofs::Keys::contains_key), unfolding(crate::specs::JsonForm::key_of))]
fn key_of(alloc: Global, choices: &[Choice], text: &str) -> Result<Word, CodecFault>
    ensures form { IsCodecResult (λ word. word) result (key_of choices.now text.now) }
    ensures holds { IfOk result (IsKey choices.now) }
{
    let key = text_of(alloc, MAX_CHAR_BYTES, text)?;
    if !is_declared(choices, key.as_str()) {
        return Err(CodecFault::Unknown(Place::whole(alloc)));
    }
    Ok(key)
}

/// Whether one of the choices has the key.
fn is_declared(choices: &[Choice], text: &str) -> bool
    ensures { result ≡ list_any (bytes_eq text.now) (keys_of choices.now) }
{
    choices.iter().any(|choice| text == choice.key.as_str())
}

/// What a text spells, if anything.
fn spelled<T: Drop>(alloc: Global, read: Option<T>) -> Result<T, CodecFault>
    ensures { IsCodecResult (λ x. x) result (spelled read) }
{
    match read {
        Some(value) => Ok(value),
        None => Err(range(alloc, &[])),
    }
}
