//! The values that operands stand for, by the type of the field. A new type gets its arms
//! here, and its forms in `specs/Operands`.

ghost use Rattle.std.specs.Prelude.{◌≡◌, ◌∷◌, [], IfOk, map};
ghost use Rattle.serde_json.specs.View.{view, number_view};
ghost use Rattle.ob_domain.specs.Operands.{each_of, has_numbers, integer_from, is_user, item_from, list_from, moment_or_day, node_from, node_value, nodes_from, number_value, text_value, truth_value, unset_value, value_from, whole_from};
ghost use Rattle.ob_domain.specs.Places.{IsResult};

use crate::Json;
use crate::fault::Unfit;
use crate::term::Operand;
use ob_base::{NoMemory, Sequence, Value, Word};
use ob_dates::{day_of, moment_of};
use ob_schema::{FieldInfo, FieldType, Origin};
use serde_json::Number;
use std::alloc::Global;

/// The seconds from the start of a day to its last second.
const LAST_SECOND: i64 = 86_399;

/// The seconds of a day.
const SECONDS_OF_A_DAY: i64 = 86_400;

/// Which second of a day a date alone stands for, where the field has moments.
#[derive(Clone, Copy, Debug, PartialEq, Eq)]
pub enum Second {
    First,
    Last,
}

/// The operand that JSON is for a field, as a whole: the caller's id too, where ids or
/// integers fit.
pub(crate) fn whole_operand(
    alloc: Global,
    field: &FieldInfo,
    second: Second,
    json: &Json,
) -> Result<Operand, Unfit>
    ensures { IsResult (λ o. o) result (whole_from field.now second (view json.now)) }
{
    if has_numbers(field.field_type) && is_user(json) {
        return Ok(Operand::User);
    }
    Ok(Operand::Value(value_of(alloc, field, second, json)?))
}

/// The operands of a list.
#[tactic(auto, using(crate::proofs::Each::listed_items))]
pub(crate) fn operands_of(
    alloc: Global,
    field: &FieldInfo,
    json: &Json,
) -> Result<Sequence<Operand>, Unfit>
    ensures { IsResult (λ os. os) result (list_from field.now (view json.now)) }
{
    match json {
        Json::Array(items) => values_of(alloc, field, items.as_slice()),
        _ => Err(Unfit::Operand),
    }
}

/// The operands that these values are.
fn values_of(alloc: Global, field: &FieldInfo, items: &[Json]) -> Result<Sequence<Operand>, Unfit>
    ensures { IsResult (λ os. os) result (each_of (item_from field.now) (map view items.now)) }
{
    let mut operands = Sequence::new(alloc);
    for item in items {
        let value = value_of(alloc, field, Second::First, item)?;
        operands.push(Operand::Value(value))?;
    }
    Ok(operands)
}

/// The rows that JSON names in a tree: one id, a list of ids, or none by `false`.
#[tactic(auto, using(crate::proofs::Each::listed_items))]
pub(crate) fn nodes_of(alloc: Global, json: &Json) -> Result<Sequence<Operand>, Unfit>
    ensures { IsResult (λ os. os) result (nodes_from (view json.now)) }
{
    match json {
        Json::Bool(false) => Ok(Sequence::new(alloc)),
        Json::Array(items) => ids_of(alloc, items.as_slice()),
        json if is_user(json) => Ok(single(alloc, Operand::User)?),
        json => Ok(single(alloc, Operand::Value(id_of(json)?))?),
    }
}

/// The rows of these ids.
fn ids_of(alloc: Global, items: &[Json]) -> Result<Sequence<Operand>, Unfit>
    ensures { IsResult (λ os. os) result (each_of node_from (map view items.now)) }
{
    let mut nodes = Sequence::new(alloc);
    for item in items {
        nodes.push(Operand::Value(id_of(item)?))?;
    }
    Ok(nodes)
}

/// A list of one operand.
pub(crate) fn single(alloc: Global, operand: Operand) -> Result<Sequence<Operand>, NoMemory>
    ensures { IfOk result (λ operands. operands ≡ operand ∷ []) }
{
    let mut operands = Sequence::new(alloc);
    operands.push(operand)?;
    Ok(operands)
}

/// The number of a row, whether or not a row can have it.
fn id_of(json: &Json) -> Result<Value, Unfit>
    ensures { IsResult (λ v. v) result (node_value (view json.now)) }
{
    match json {
        Json::Number(number) => integer_of(number),
        _ => Err(Unfit::Operand),
    }
}

/// Whether JSON is `{"user":"id"}`.
fn is_user(json: &Json) -> bool
    ensures { result ≡ is_user (view json.now) }
{
    let Json::Object(members) = json else {
        return false;
    };
    let Some(user) = json.get("user") else {
        return false;
    };
    let Some(text) = user.as_str() else {
        return false;
    };
    members.len() == 1 && text == "id"
}

/// Whether an id or an integer fits a field of the type.
fn has_numbers(field_type: FieldType) -> bool
    ensures { result ≡ has_numbers field_type }
{
    matches!(field_type, FieldType::Integer) || field_type.is_relation()
}

/// The value that JSON stands for.
fn value_of(alloc: Global, field: &FieldInfo, second: Second, json: &Json) -> Result<Value, Unfit>
    ensures { IsResult (λ v. v) result (value_from field.now second (view json.now)) }
{
    match json {
        Json::Null | Json::Bool(false) => Ok(unset_value(field)),
        Json::Bool(true) => truth_value(field.field_type),
        Json::Number(number) => number_value(field.field_type, number),
        Json::String(text) => text_value(alloc, field.field_type, second, text.as_str()),
        Json::Array(_) | Json::Object(_) => Err(Unfit::Operand),
    }
}

/// What `false` and `null` stand for: an id is never unset, but no row has an unset one.
fn unset_value(field: &FieldInfo) -> Value
    ensures { result ≡ unset_value field.now }
{
    if let Origin::Id = &field.origin {
        return Value::Nil;
    }
    match field.field_type {
        FieldType::Boolean => Value::Bool(false),
        FieldType::Integer => Value::Int(0),
        _ => Value::Nil,
    }
}

/// What `true` stands for.
fn truth_value(field_type: FieldType) -> Result<Value, Unfit>
    ensures { IsResult (λ v. v) result (truth_value field_type) }
{
    match field_type {
        FieldType::Boolean => Ok(Value::Bool(true)),
        _ => Err(Unfit::Operand),
    }
}

/// What a number stands for.
fn number_value(field_type: FieldType, number: &Number) -> Result<Value, Unfit>
    ensures { IsResult (λ v. v) result (number_value field_type (number_view number.now)) }
{
    if has_numbers(field_type) {
        integer_of(number)
    } else {
        Err(Unfit::Operand)
    }
}

/// An integer of 64 bits.
fn integer_of(number: &Number) -> Result<Value, Unfit>
    ensures { IsResult (λ v. v) result (integer_from (number_view number.now)) }
{
    match number.as_i64() {
        Some(integer) => Ok(Value::Int(integer)),
        None => Err(Unfit::Operand),
    }
}

/// What a text stands for.
fn text_value(
    alloc: Global,
    field_type: FieldType,
    second: Second,
    text: &str,
) -> Result<Value, Unfit>
    ensures { IsResult (λ v. v) result (text_value field_type second text.now) }
{
    match field_type {
        FieldType::Char | FieldType::Text | FieldType::Selection => {
            Ok(Value::Word(Word::from_text(alloc, text)?))
        }
        FieldType::Date => match day_of(text) {
            Some(day) => Ok(Value::Day(day)),
            None => Err(Unfit::Operand),
        },
        FieldType::Datetime => match moment_from(second, text) {
            Some(moment) => Ok(Value::Moment(moment)),
            None => Err(Unfit::Operand),
        },
        _ => Err(Unfit::Operand),
    }
}

/// The moment that a text names; a date alone names a second of its day.
fn moment_from(second: Second, text: &str) -> Option<i64>
    ensures { result ≡ moment_or_day second text.now }
{
    if let Some(moment) = moment_of(text) {
        return Some(moment);
    }
    let start = i64::from(day_of(text)?) * SECONDS_OF_A_DAY;
    match second {
        Second::First => Some(start),
        Second::Last => Some(start + LAST_SECOND),
    }
}
