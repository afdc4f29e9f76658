//! What is told of the values that the rows of a group hold for a field. A further aggregate is a
//! variant here, with what it tells in `specs/GroupAmounts` and its name in `specs/GroupForms`.

ghost use Rattle.std.specs.Prelude.{◌≡◌, ◌≤◌, ◌^◌, ◌-◌, false, length, map, negsuc, not, option_map, pos, slice_index_or, IfOk, Some};
ghost use Rattle.std.specs.Int.{int_max, int_min};
ghost use Rattle.std.specs.Option.{option_map_or};
ghost use Rattle.jiff_core.specs.Calendar.{IsBetween};
ghost use Rattle.ob_base.specs.declared.value.Value.TheVariants.{Nil};
ghost use Rattle.ob_domain.specs.Passing.{is_unset};
ghost use Rattle.ob_group.specs.GroupAmounts.{TellsAmount, greatest, least, number_or_false, set_values, total, total_json, whole_of};
ghost use Rattle.ob_group.specs.GroupValues.{IsDistinctCount, column_of};
ghost use Rattle.ob_query.specs.SearchKeys.{rising};
ghost use Rattle.serde_json.specs.View.{view};
ghost use Rattle.serde_json.specs.Written.{has_float};

use ob_base::{NoMemory, Value};
use ob_call::Json;
use ob_query::{Key, rising};
use std::alloc::Global;
use std::collections::BTreeSet;

/// What is told of values.
#[derive(Clone, Copy)]
pub(crate) enum Amount {
    Sum,
    Least,
    Greatest,
    /// How many are set.
    Count,
    /// How many different ones are set.
    CountDistinct,
}

/// The JSON of an amount of what rows hold at a number.
pub(crate) fn amount_json(
    alloc: Global,
    amount: Amount,
    rows: &[Vec<Value>],
    number: usize,
) -> Result<Json, NoMemory>
    ensures told { IfOk result (λ json. TellsAmount amount (column_of number rows.now) (view json)) }
    ensures plain { IfOk result (λ json. has_float (view json) ≡ false) }
{
    match amount {
        Amount::Sum => total_json(alloc, total(rows, number)),
        Amount::Least => Ok(number_or_false(least(rows, number))),
        Amount::Greatest => Ok(number_or_false(greatest(rows, number))),
        Amount::Count => Ok(Json::from(set_count(rows, number))),
        Amount::CountDistinct => Ok(Json::from(distinct_count(alloc, rows, number)?)),
    }
}

/// The sum of what rows hold at a number.
fn total(rows: &[Vec<Value>], number: usize) -> i128
    ensures { result ≡ total (column_of number rows.now) }
{
    let mut total: i128 = 0;
    for row in rows {
        total += whole_at(row.as_slice(), number) as i128;
    }
    total
}

/// The least of what rows hold at a number.
fn least(rows: &[Vec<Value>], number: usize) -> Option<i64>
    ensures { result ≡ least (column_of number rows.now) }
{
    let mut least = None;
    for row in rows {
        least = Some(lesser(least, whole_at(row.as_slice(), number)));
    }
    least
}

/// The lesser of a number and the one before it, where there is one.
fn lesser(before: Option<i64>, number: i64) -> i64
    ensures { result ≡ option_map_or (λ other. int_min other number) before number }
{
    match before {
        Some(other) => other.min(number),
        None => number,
    }
}

/// The greatest of what rows hold at a number.
fn greatest(rows: &[Vec<Value>], number: usize) -> Option<i64>
    ensures { result ≡ greatest (column_of number rows.now) }
{
    let mut greatest = None;
    for row in rows {
        greatest = Some(greater(greatest, whole_at(row.as_slice(), number)));
    }
    greatest
}

/// The greater of a number and the one before it, where there is one.
fn greater(before: Option<i64>, number: i64) -> i64
    ensures { result ≡ option_map_or (λ other. int_max other number) before number }
{
    match before {
        Some(other) => other.max(number),
        None => number,
    }
}

/// How many rows hold a value at a number that is set.
fn set_count(rows: &[Vec<Value>], number: usize) -> usize
    ensures { result ≡ length (set_values (column_of number rows.now)) }
{
    let mut count: usize = 0;
    for row in rows {
        if is_set_at(row.as_slice(), number) {
            count += 1;
        }
    }
    count
}

/// How many different values rows hold at a number that are set.
fn distinct_count(alloc: Global, rows: &[Vec<Value>], number: usize) -> Result<usize, NoMemory>
    ensures { IfOk result (IsDistinctCount (set_values (column_of number rows.now))) }
{
    let mut distinct = BTreeSet::new(alloc);
    for row in rows {
        if is_set_at(row.as_slice(), number) {
            distinct.insert(key_at(alloc, row.as_slice(), number)?)?;
        }
    }
    Ok(distinct.len())
}

/// The key of the value at a number, by which it rises.
fn key_at(alloc: Global, row: &[Value], number: usize) -> Result<Key, NoMemory>
    ensures { IfOk result (λ key. key ≡ rising (slice_index_or row.now number Nil)) }
{
    Ok(rising(value_at(alloc, row, number)?))
}

/// The value at a number; unset where there is none.
pub(crate) fn value_at(alloc: Global, row: &[Value], number: usize) -> Result<Value, NoMemory>
    ensures { IfOk result (λ value. value ≡ slice_index_or row.now number Nil) }
{
    match row.get(number) {
        Some(value) => value.try_clone(alloc),
        None => Ok(Value::Nil),
    }
}

/// Whether the value at a number is set.
fn is_set_at(row: &[Value], number: usize) -> bool
    ensures { result ≡ not (is_unset (slice_index_or row.now number Nil)) }
{
    match row.get(number) {
        Some(Value::Nil) => false,
        Some(_) => true,
        None => false,
    }
}

/// The number that the value at a number is; 0 where it is none.
fn whole_at(row: &[Value], number: usize) -> i64
    ensures { result ≡ whole_of (slice_index_or row.now number Nil) }
{
    match row.get(number) {
        Some(Value::Int(whole)) => *whole,
        Some(_) => 0,
        None => 0,
    }
}

/// The JSON of a sum: past 64 bits it is the text of its digits.
fn total_json(alloc: Global, total: i128) -> Result<Json, NoMemory>
    ensures told { IfOk result (λ json. view json ≡ total_json total) }
    ensures plain { IfOk result (λ json. has_float (view json) ≡ false) }
{
    if total < i64::MIN as i128 || total > i64::MAX as i128 {
        return Ok(Json::String(format!(in alloc; "{total}")?));
    }
    Ok(Json::from(total as i64))
}

/// The JSON of a number; of none it is `false`.
fn number_or_false(number: Option<i64>) -> Json
    ensures told { view result ≡ number_or_false number }
    ensures plain { has_float (view result) ≡ false }
{
    match number {
        Some(number) => Json::from(number),
        None => Json::Bool(false),
    }
}
