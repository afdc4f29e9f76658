//! The values of cells, and the one order that all of them share.

ghost use Rattle.std.specs.Prelude.{◌≡◌, ◌↔◌, IsTrue, IfOk};
ghost use Rattle.std.specs.Cmp.{IsTotalOrder};
ghost use Rattle.std.specs.FinMap.{IsAntisymmetric};
ghost use Rattle.ob_base.specs.ValueOrder.{value_order, variant_of};

use crate::id::RecId;
use crate::memory::NoMemory;
use crate::ref_list::RefList;
use crate::word::Word;
use std::alloc::Global;
use std::cmp::Ordering;

/// The value of a cell. `Nil` is unset; a day counts days and a moment seconds,
/// both from 1970-01-01 00:00:00 UTC.
#[derive(Debug, Drop)]
pub enum Value {
    Nil,
    Bool(bool),
    Int(i64),
    Word(Word),
    Day(i32),
    Moment(i64),
    Ref(RecId),
    Refs(RefList),
}

impl Value {
    /// The same value again.
    pub fn try_clone(&self, alloc: Global) -> Result<Value, NoMemory>
        ensures { IfOk result (λ value. value ≡ self.now) }
    {
        match self {
            Value::Nil => Ok(Value::Nil),
            Value::Bool(flag) => Ok(Value::Bool(*flag)),
            Value::Int(number) => Ok(Value::Int(*number)),
            Value::Word(word) => Ok(Value::Word(word.try_clone(alloc)?)),
            Value::Day(day) => Ok(Value::Day(*day)),
            Value::Moment(moment) => Ok(Value::Moment(*moment)),
            Value::Ref(id) => Ok(Value::Ref(*id)),
            Value::Refs(ids) => Ok(Value::Refs(ids.try_clone(alloc)?)),
        }
    }
}

/// The place of the variant, in the order in which they are declared.
fn variant(value: &Value) -> u8
    ensures { result ≡ variant_of value.now }
{
    match value {
        Value::Nil => 0,
        Value::Bool(_) => 1,
        Value::Int(_) => 2,
        Value::Word(_) => 3,
        Value::Day(_) => 4,
        Value::Moment(_) => 5,
        Value::Ref(_) => 6,
        Value::Refs(_) => 7,
    }
}

/// Compares by variant, in the order in which they are declared, then by content:
/// numbers by size, texts by bytes, lists by their items from the front. The order
/// is total, and only equal values compare as equal.
#[tactic(auto, using(crate::proofs::OrderLaws::value_order_total, crate::proofs::OrderLaws::value_order_exact))]
pub fn value_cmp(a: &Value, b: &Value) -> Ordering
    ensures order { result ≡ value_order a.now b.now }
    ensures total { IsTotalOrder value_order }
    ensures exact { IsAntisymmetric value_order }
{
    match (a, b) {
        (Value::Bool(x), Value::Bool(y)) => x.cmp(y),
        (Value::Int(x), Value::Int(y)) => x.cmp(y),
        (Value::Word(x), Value::Word(y)) => x.as_str().cmp(y.as_str()),
        (Value::Day(x), Value::Day(y)) => x.cmp(y),
        (Value::Moment(x), Value::Moment(y)) => x.cmp(y),
        (Value::Ref(x), Value::Ref(y)) => x.cmp(y),
        (Value::Refs(x), Value::Refs(y)) => x.as_slice().cmp(y.as_slice()),
        _ => variant(a).cmp(&variant(b)),
    }
}

/// Whether two values are the same.
pub fn value_eq(a: &Value, b: &Value) -> bool
    ensures { IsTrue result ↔ (a.now ≡ b.now) }
{
    value_cmp(a, b).is_eq()
}
