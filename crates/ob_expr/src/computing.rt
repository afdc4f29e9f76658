//! What operators and functions make of values. An operator that is added gets its value
//! here, and in `specs/Computing`. Integers are computed in 128 bits, so that a result is
//! exact before it is known to fit.

ghost use Rattle.std.specs.Prelude.{◌≡◌, ◌≢◌, Ok, pos, neg_ℤ, ◌*ℤ◌, ◌<◌, ◌^◌, filter, length};
ghost use Rattle.std.specs.List.{list_all, list_any};
ghost use Rattle.ob_expr.specs.Computing.{arithmetic_value, chosen_value, compares, decides, digits_value, extreme_of, fitted, floor_of, gathered_value, is_true, is_unset, joined_value};
ghost use Rattle.ob_expr.specs.Computing.{number_of, operated_value, prefixed_value, rest_of, total};
ghost use Rattle.ob_expr.specs.Kinds.{empty_value};
ghost use Rattle.ob_expr.specs.Told.{TellsValue};

use crate::fault::EvalFault;
use crate::kind::Kind;
use crate::typed::{Aggregate, Extreme};
use ob_base::limits::MAX_TEXT_BYTES;
use ob_base::{Operator, Prefix, RefList, Value, Word, value_cmp};
use std::alloc::Global;

/// An integer of 64 bits, or an overflow.
pub fn fitted<F>(number: i128) -> Result<Value, EvalFault<F>>
    ensures { TellsValue result (fitted number) }
{
    if number < i64::MIN as i128 || number > i64::MAX as i128 {
        return Err(EvalFault::Overflow);
    }
    Ok(Value::Int(number as i64))
}

/// What stands for nothing: false, 0, the empty list, or unset.
pub fn empty_value(alloc: Global, kind: Kind) -> Value
    ensures { result ≡ empty_value kind }
{
    match kind {
        Kind::Bool => Value::Bool(false),
        Kind::Int => Value::Int(0),
        Kind::Refs(_) => Value::Refs(RefList::new(alloc)),
        _ => Value::Nil,
    }
}

/// Whether a value is the true one.
pub fn is_true(value: &Value) -> bool
    ensures { result ≡ is_true value.now }
{
    match value {
        Value::Bool(flag) => *flag,
        _ => false,
    }
}

fn is_unset(value: &Value) -> bool
    ensures { result ≡ is_unset value.now }
{
    matches!(value, Value::Nil)
}

/// The number that an integer, a day or a moment is.
fn number(value: &Value) -> i64
    ensures { result ≡ number_of value.now }
{
    match value {
        Value::Int(number) | Value::Moment(number) => *number,
        Value::Day(day) => *day as i64,
        _ => 0,
    }
}

/// What a prefix makes of its operand.
pub fn prefixed<F>(prefix: Prefix, value: &Value) -> Result<Value, EvalFault<F>>
    ensures { TellsValue result (prefixed_value prefix value.now) }
{
    match prefix {
        Prefix::Not => Ok(Value::Bool(!is_true(value))),
        Prefix::Minus => negated(number(value)),
    }
}

fn negated<F>(number: i64) -> Result<Value, EvalFault<F>>
    ensures { TellsValue result (fitted (neg_ℤ number)) }
{
    fitted(-(number as i128))
}

/// Whether the left operand decides: the right one is then never evaluated.
pub fn decides(operator: Operator, left: &Value) -> bool
    ensures { result ≡ decides operator left.now }
{
    match operator {
        Operator::Or => is_true(left),
        Operator::And => !is_true(left),
        _ => false,
    }
}

/// What an operator makes of operands that it needs both.
pub fn operated<F>(operator: Operator, left: Value, right: Value) -> Result<Value, EvalFault<F>>
    ensures { TellsValue result (operated_value operator left right) }
{
    match operator {
        Operator::Or | Operator::And => Ok(right),
        Operator::Add
        | Operator::Subtract
        | Operator::Multiply
        | Operator::Divide
        | Operator::Modulo => arithmetic(operator, number(&left), number(&right)),
        _ => Ok(Value::Bool(compared(operator, &left, &right))),
    }
}

/// Whether a comparison holds; an order holds of no unset value.
fn compared(operator: Operator, left: &Value, right: &Value) -> bool
    ensures { result ≡ compares operator left.now right.now }
{
    let order = value_cmp(left, right);
    let set = !is_unset(left) && !is_unset(right);
    match operator {
        Operator::Equal => order.is_eq(),
        Operator::NotEqual => order.is_ne(),
        Operator::Less => set && order.is_lt(),
        Operator::LessOrEqual => set && order.is_le(),
        Operator::Greater => set && order.is_gt(),
        _ => set && order.is_ge(),
    }
}

/// What arithmetic makes of integers.
fn arithmetic<F>(operator: Operator, left: i64, right: i64) -> Result<Value, EvalFault<F>>
    ensures { TellsValue result (arithmetic_value operator left right) }
{
    match operator {
        Operator::Add => fitted(left as i128 + right as i128),
        Operator::Subtract => fitted(left as i128 - right as i128),
        Operator::Multiply => fitted(product(left, right)),
        _ if right == 0 => Err(EvalFault::ZeroDivisor),
        Operator::Divide => fitted(floor(left, right)),
        _ => Ok(Value::Int(rest(left, right))),
    }
}

fn product(left: i64, right: i64) -> i128
    ensures { result ≡ left *ℤ right }
{
    left as i128 * right as i128
}

/// The greatest integer that is no greater than the quotient.
fn floor(left: i64, right: i64) -> i128
    requires { right ≢ pos 0 }
    ensures { result ≡ floor_of left right }
{
    let (left, right) = (left as i128, right as i128);
    if right < 0 {
        (-left).div_euclid(-right)
    } else {
        left.div_euclid(right)
    }
}

/// What the divisor's multiple leaves, of the divisor's sign.
fn rest(left: i64, right: i64) -> i64
    requires { right ≢ pos 0 }
    ensures { result ≡ rest_of left right }
{
    let (left, right) = (left as i128, right as i128);
    if right < 0 {
        (-(-left).rem_euclid(-right)) as i64
    } else {
        left.rem_euclid(right) as i64
    }
}

/// The lesser or the greater of two values, by their numbers.
pub fn chosen(which: Extreme, left: Value, right: Value) -> Value
    ensures { result ≡ chosen_value which left right }
{
    let takes_right = match which {
        Extreme::Least => number(&right) < number(&left),
        Extreme::Greatest => number(&left) < number(&right),
    };
    if takes_right { right } else { left }
}

/// What is made of the values at targets, of a kind.
pub fn gathered<F>(
    alloc: Global,
    aggregate: Aggregate,
    kind: Kind,
    values: Vec<Value>,
) -> Result<Value, EvalFault<F>>
    ensures { TellsValue result (gathered_value aggregate kind values.items) }
{
    match aggregate {
        Aggregate::Count => Ok(counted(&values)),
        Aggregate::Any => Ok(Value::Bool(any_true(&values))),
        Aggregate::All => Ok(Value::Bool(all_true(&values))),
        Aggregate::Sum => fitted(total(&values)),
        Aggregate::Extreme(which) => Ok(extreme(which, empty_value(alloc, kind), values)),
    }
}

/// How many values are true.
fn counted(values: &[Value]) -> Value
    ensures { result ≡ Value.Int (pos (length (filter is_true values.now))) }
{
    Value::Int(count_true(values) as i64)
}

fn count_true(values: &[Value]) -> usize
    ensures count { result ≡ length (filter is_true values.now) }
    ensures fits { result < 2 ^ 63 }
{
    values.iter().filter(|value| is_true(value)).count()
}

fn any_true(values: &[Value]) -> bool
    ensures { result ≡ list_any is_true values.now }
{
    values.iter().any(is_true)
}

fn all_true(values: &[Value]) -> bool
    ensures { result ≡ list_all is_true values.now }
{
    values.iter().all(is_true)
}

/// The sum of the values' numbers.
fn total(values: &[Value]) -> i128
    ensures { result ≡ total values.now }
{
    let mut sum = 0;
    for value in values {
        sum += number(value) as i128;
    }
    sum
}

/// The least or the greatest of the values that are set, or else the one for none.
fn extreme(which: Extreme, none: Value, values: Vec<Value>) -> Value
    ensures { result ≡ extreme_of which none values.items }
{
    values
        .into_iter()
        .filter(|value| !is_unset(value))
        .reduce(|before, value| chosen(which, before, value))
        .unwrap_or(none)
}

/// Texts one behind another; an unset one is empty.
pub fn joined<F>(alloc: Global, values: &[Value]) -> Result<Value, EvalFault<F>>
    ensures { TellsValue result (joined_value values.now) }
{
    let mut text = String::new(alloc);
    for value in values {
        if let Value::Word(word) = value {
            if word.len() > MAX_TEXT_BYTES - text.len() {
                return Err(EvalFault::TooLong);
            }
            text.push_str(word.as_str())?;
        }
    }
    Ok(Value::Word(Word::new(text)))
}

/// The decimal digits of an integer.
pub fn digits<F>(alloc: Global, value: &Value) -> Result<Value, EvalFault<F>>
    ensures { TellsValue result (Ok (digits_value value.now)) }
{
    let number = number(value);
    Ok(Value::Word(Word::new(format!(in alloc; "{number}")?)))
}
