//! Whether a value passes the test of a criterion. An operator that is added has its meaning
//! here, and in `specs/Passing`.

ghost use Rattle.std.specs.Prelude.{◌≡◌, IfOk};
ghost use Rattle.std.specs.List.{list_any};
ghost use Rattle.ob_base.specs.declared.id.RecId.{RecId};
ghost use Rattle.ob_base.specs.declared.value.Value.TheVariants.{Ref as a_ref};
ghost use Rattle.ob_domain.specs.Passing.{compares, is_among, is_one_of, is_unset, matches_value, operand_value, order_of};

use crate::operator::Comparison;
use crate::pattern::{folded_characters, matches};
use crate::term::{Operand, Pattern};
use ob_base::{NoMemory, RecId, RefList, Value, value_cmp};
use std::alloc::Global;
use std::cmp::Ordering;

/// Whether a value is one of these; a list, whether it names one of these, or is empty where
/// one of them is unset.
pub(crate) fn is_one_of(operands: &[Operand], user: RecId, value: &Value) -> bool
    ensures { result ≡ is_one_of operands.now user value.now }
{
    match value {
        Value::Refs(ids) if !ids.is_empty() => names_one_of(operands, user, ids),
        Value::Refs(_) => is_among(operands, user, &Value::Nil),
        value => is_among(operands, user, value),
    }
}

/// Whether a list names one of these.
fn names_one_of(operands: &[Operand], user: RecId, ids: &RefList) -> bool
    ensures { result ≡ list_any (λ id. is_among operands.now user (a_ref id)) ids.now }
{
    ids.as_slice()
        .iter()
        .any(|id| is_among(operands, user, &Value::Ref(*id)))
}

/// Whether a value is one of these.
fn is_among(operands: &[Operand], user: RecId, value: &Value) -> bool
    ensures { result ≡ is_among operands.now user value.now }
{
    operands
        .iter()
        .any(|operand| order_of(value, operand, user).is_eq())
}

/// Whether a value stands so to an operand; an unset one to none.
pub(crate) fn compares(
    comparison: Comparison,
    operand: &Operand,
    user: RecId,
    value: &Value,
) -> bool
    ensures { result ≡ compares comparison operand.now user value.now }
{
    if is_unset(operand) || matches!(value, Value::Nil) {
        return false;
    }
    let order = order_of(value, operand, user);
    match comparison {
        Comparison::Less => order.is_lt(),
        Comparison::LessOrEqual => order.is_le(),
        Comparison::Greater => order.is_gt(),
        Comparison::GreaterOrEqual => order.is_ge(),
    }
}

fn is_unset(operand: &Operand) -> bool
    ensures { (user : RecId) → result ≡ is_unset (operand_value user operand.now) }
{
    matches!(operand, Operand::Value(Value::Nil))
}

/// How a value stands to an operand in the order of values, in which a row counts as the
/// number of its id.
fn order_of(value: &Value, operand: &Operand, user: RecId) -> Ordering
    ensures { result ≡ order_of value.now operand.now user }
{
    match (value, operand) {
        (Value::Ref(id), Operand::User) => id.cmp(&user),
        (Value::Int(number), Operand::User) => i128::from(*number).cmp(&i128::from(user.0)),
        (value, Operand::User) => value_cmp(value, &Value::Int(0)),
        (Value::Ref(id), Operand::Value(Value::Int(number))) => {
            i128::from(id.0).cmp(&i128::from(*number))
        }
        (Value::Ref(_), Operand::Value(other)) => value_cmp(&Value::Int(0), other),
        (value, Operand::Value(other)) => value_cmp(value, other),
    }
}

/// Whether a value is a text that matches.
pub(crate) fn matches_value(
    alloc: Global,
    pattern: &Pattern,
    value: &Value,
) -> Result<bool, NoMemory>
    ensures { IfOk result (λ b. b ≡ matches_value pattern.now value.now) }
{
    let Value::Word(text) = value else {
        return Ok(false);
    };
    let characters = folded_characters(alloc, pattern.folds, text.as_str())?;
    Ok(matches(pattern.characters.as_slice(), characters.as_slice()))
}
