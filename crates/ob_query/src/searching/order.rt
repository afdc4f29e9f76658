//! Rows in the order of a search: each is ranked by what it holds for the terms of the order, in
//! turn, then by its id. What the order is stands in `specs/SearchOrder`.

ghost use Rattle.std.specs.Prelude.{◌≡◌, IfOk, List, map, Some};
ghost use Rattle.std.specs.Cmp;
ghost use Rattle.std.specs.Cmp.{eq_by_cmp_equiv, partial_order_from_total};
ghost use Rattle.std.specs.Cmp.Rules.{comparing};
ghost use Rattle.std.specs.Ordering.{is_eq};
ghost use Rattle.std.proofs.Common.{rules};
ghost use Rattle.ob_domain.specs.Passing.{is_unset};
ghost use Rattle.ob_base.specs.declared.id.FieldNo.{FieldNo};
ghost use Rattle.ob_base.specs.declared.id.RecId.{RecId};
ghost use Rattle.ob_base.specs.declared.value.Value.{Value};
ghost use Rattle.ob_schema.specs.declared.info.OrderTerm.{OrderTerm};
ghost use Rattle.ob_query.specs.SearchKeys.{rising};
ghost use Rattle.ob_query.specs.SearchKeys.{AreKeyed, key_order, key_order_total};
ghost use Rattle.ob_query.specs.SearchOrder.{AreOrdered, unset_last, window};

use ob_base::{NoMemory, RecId, Value, value_cmp};
use std::alloc::Global;
use std::cmp::Ordering;

/// What a row holds for a term of an order, and whether rows fall by it.
#[derive(Drop)]
pub struct Key {
    pub descending: bool,
    pub value: Value,
}

impl PartialEq for Key {
    ghost eq = { λ a b. is_eq (key_order a b) };

    ghost laws = { Cmp.partial_equiv_from_equiv (eq_by_cmp_equiv key_order_total) };

    fn eq(&self, other: &Key) -> bool {
        self.cmp(other).is_eq()
    }
}

impl Eq for Key {
    ghost laws = { eq_by_cmp_equiv key_order_total };
}

impl PartialOrd for Key {
    ghost partial_cmp = { λ a b. Some (key_order a b) };

    ghost laws = { partial_order_from_total key_order_total };

    fn partial_cmp(&self, other: &Key) -> Option<Ordering> {
        Some(self.cmp(other))
    }
}

impl Ord for Key {
    ghost cmp = { key_order };

    ghost total = { key_order_total };

    ghost matches_partial_cmp = { Prim.search (comparing, rules) };

    ghost matches_eq = { Prim.search (comparing, rules) };

    fn cmp(&self, other: &Key) -> Ordering {
        match (self.descending, other.descending) {
            (false, false) => unset_last(&self.value, &other.value),
            (true, true) => unset_last(&other.value, &self.value),
            (falls, others) => falls.cmp(&others),
        }
    }
}

/// The key of a value by which rows rise.
pub fn rising(value: Value) -> Key
    ensures { result ≡ rising value }
{
    Key {
        descending: false,
        value,
    }
}

/// By size; what is unset comes last.
fn unset_last(a: &Value, b: &Value) -> Ordering
    ensures { result ≡ unset_last a.now b.now }
{
    is_unset(a).cmp(&is_unset(b)).then(value_cmp(a, b))
}

fn is_unset(value: &Value) -> bool
    ensures { result ≡ is_unset value.now }
{
    matches!(value, Value::Nil)
}

/// A row that was found, with its keys.
#[derive(Drop, PartialEq, Eq, PartialOrd, Ord)]
pub struct Ranked {
    pub keys: Vec<Key>,
    pub id: RecId,
}

/// The ids of rows in their order: from one on, at most so many, 0 being no limit.
pub fn ids_in_order(
    alloc: Global,
    rows: Vec<Ranked>,
    offset: u64,
    limit: u64,
) -> Result<Vec<RecId>, NoMemory>
    ensures { IfOk result (λ ids. (held : FieldNo → RecId → Value) → (terms : List OrderTerm) → AreKeyed held terms rows.items
        → AreOrdered held terms offset limit (map (λ row. row.id) rows.items) ids.items) }
{
    let mut rows = rows;
    rows.sort()?;
    ids_of(alloc, window_of(rows.as_slice(), offset, limit))
}

/// Some of these rows: from one on, at most so many, 0 being no limit.
pub fn window_of<T>(rows: &[T], offset: u64, limit: u64) -> &[T]
    ensures { result.now ≡ window offset limit rows.now }
{
    let rest = &rows[rows.len().min(offset as usize)..];
    if limit == 0 {
        return rest;
    }
    &rest[..rest.len().min(limit as usize)]
}

/// The ids of rows.
fn ids_of(alloc: Global, rows: &[Ranked]) -> Result<Vec<RecId>, NoMemory>
    ensures { IfOk result (λ ids. ids.items ≡ map (λ row. row.id) rows.now) }
{
    Ok(rows.iter().map(|row| row.id).collect(alloc)?)
}
