//! The rows of tables, with an index of which of them name which. Contracts see the rows alone,
//! as a map of them; where memory is wanting nothing is half done.

ghost use Rattle.std.specs.Prelude.{◌≡◌, IfOk, IsSome, ◌<◌, None, OnErr, OnOk, Some, filter, is_some, map, nat_lt};
ghost use Rattle.std.specs.Map.Iter.{ShowsInOrder, deref_pair};
ghost use Rattle.std.specs.Option.{option_copied};
ghost use Rattle.std.specs.BTreeMap as tree;
ghost use Rattle.std.specs.BTreeMap.Range.{entries_between};
ghost use Rattle.std.specs.Prelude.{ℕ};
ghost use Rattle.ob_base.specs.Ids.{row_key_cmp};
ghost use Rattle.ob_base.specs.declared.id.RecId.{RecId};
ghost use Rattle.ob_base.specs.declared.id.RowKey.{RowKey};
ghost use Rattle.ob_base.specs.declared.value.Value.{Value};
ghost use Rattle.ob_schema.specs.Plain.{naming};
ghost use Rattle.ob_schema.specs.Tables.{key_of};
ghost use Rattle.ob_tables.specs.Holdings.{IsTurned, holding_at, rows_alone};

use crate::holdings::{Holding, Holdings, turn_row};
use crate::row::PlainRow;
use ob_base::{FieldNo, ModelNo, NoMemory, RecId, RowKey};
use ob_shared::{Range, SharedMap};
use std::alloc::Global;
use std::collections::BTreeMap;
use std::marker::Model;
use std::ops::Bound;

/// Rows, and which of them name which. Copies share what they have in common.
#[derive(Drop)]
pub(crate) struct Rows {
    alloc: Global,
    rows: SharedMap<RowKey, PlainRow>,
    holdings: Holdings,
}

impl Model for Rows {
    ghost use Rattle.std.specs.Coded.{codes};
    ghost use Rattle.ob_tables.specs.Coding.{coded_rows};
    ghost use Rattle.ob_tables.specs.Holdings.{IsIndexOf, RowMap};

    ghost coded = { coded_rows (Prim.hlevel codes) };

    ghost Value = { RowMap };

    ghost view = { λ r. r.rows };

    ghost invariant = { λ r. IsIndexOf r.rows r.holdings };
}

impl Rows {
    /// No rows. They take no memory.
    pub(crate) fn new(alloc: Global) -> Rows
        ensures empty { tree.IsEmpty result }
    {
        Rows {
            alloc,
            rows: SharedMap::new(alloc),
            holdings: SharedMap::new(alloc),
        }
    }

    /// The same rows again, in one step.
    pub(crate) fn try_clone(&self) -> Result<Rows, NoMemory>
        ensures { IfOk result (λ copy. copy ≡ self.now) }
    {
        Ok(Rows {
            alloc: self.alloc,
            rows: self.rows.try_clone()?,
            holdings: self.holdings.try_clone()?,
        })
    }

    /// The row at a key.
    pub(crate) fn get(&self, key: &RowKey) -> Option<&PlainRow>
        ensures value { option_copied result ≡ tree.get row_key_cmp self.now key.now }
    {
        self.rows.get(key)
    }

    /// Whether a row is there.
    pub(crate) fn contains_key(&self, key: &RowKey) -> bool
        ensures { result ≡ is_some (tree.get row_key_cmp self.now key.now) }
    {
        self.rows.contains_key(key)
    }

    /// The rows whose keys are between two bounds, in order.
    pub(crate) fn range(
        &self,
        start: Bound<RowKey>,
        end: Bound<RowKey>,
    ) -> Range<'_, RowKey, PlainRow>
        ensures between { result ≡ entries_between row_key_cmp start end self.now.entries }
        ensures runs { ShowsInOrder (deref_pair {K = RowKey} {X = tree.BTreeMap ℕ Value}) }
        ensures ordered { tree.IsOrdered row_key_cmp self.now }
    {
        self.rows.range(start, end)
    }

    /// Puts a row at a key, in place of the one that is there.
    pub(crate) fn insert(&mut self, key: RowKey, row: PlainRow) -> Result<(), NoMemory>
        ensures updates { OnOk result (tree.Updates row_key_cmp self.old self.new key (Some row)) }
        ensures err { OnErr result (self.new ≡ self.old) }
    {
        let holdings = self.turned(key, &row)?;
        self.rows.insert(key, row)?;
        self.holdings = holdings;
        Ok(())
    }

    /// The holdings of the rows with another one at a key.
    fn turned(&self, key: RowKey, row: &PlainRow) -> Result<Holdings, NoMemory>
        ensures { IfOk result (IsTurned key row.now self.now) }
    {
        let none = BTreeMap::new(self.alloc);
        let mut holdings = self.holdings.try_clone()?;
        let old = self.rows.get(&key).unwrap_or(&none);
        turn_row(&mut holdings, key, old, row)?;
        Ok(holdings)
    }

    /// Takes a row out, if it is there.
    pub(crate) fn remove(&mut self, key: &RowKey) -> Result<(), NoMemory>
        ensures updates { OnOk result (tree.Updates row_key_cmp self.old self.new key.now None) }
        ensures err { OnErr result (self.new ≡ self.old) }
    {
        let none = BTreeMap::new(self.alloc);
        let holdings = self.turned(*key, &none)?;
        self.rows.remove(key)?;
        self.holdings = holdings;
        Ok(())
    }
    /// The rows of a model that name a row by a field, rising, where all their ids are below one.
    pub(crate) fn holders(
        &self,
        model: ModelNo,
        field: FieldNo,
        target: RecId,
        end: RecId,
    ) -> Range<'_, Holding, ()>
        requires { (id : RecId) → IsSome (tree.get row_key_cmp self.now (key_of model id)) → id.0 < end.0 }
        ensures { map (λ entry. entry.0.holder) result ≡ naming (rows_alone self.now) model field target }
    {
        let first = holding(model, field, target, RecId(0));
        self.holdings.range(
            Bound::Included(first),
            Bound::Excluded(holding(model, field, target, end)),
        )
    }

    /// Those of them above an id.
    pub(crate) fn holders_above(
        &self,
        model: ModelNo,
        field: FieldNo,
        target: RecId,
        after: RecId,
        end: RecId,
    ) -> Range<'_, Holding, ()>
        requires { (id : RecId) → IsSome (tree.get row_key_cmp self.now (key_of model id)) → id.0 < end.0 }
        ensures { map (λ entry. entry.0.holder) result ≡ filter (λ id. nat_lt after.0 id.0) (naming (rows_alone self.now) model field target) }
    {
        self.holdings.range(
            Bound::Excluded(holding(model, field, target, after)),
            Bound::Excluded(holding(model, field, target, end)),
        )
    }
}

fn holding(model: ModelNo, field: FieldNo, target: RecId, holder: RecId) -> Holding
    ensures { result ≡ holding_at (key_of model holder) field target }
{
    Holding {
        model,
        field,
        target,
        holder,
    }
}
