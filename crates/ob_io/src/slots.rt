//! Slots for rows and next ids. A slot may be vacant, and then shows nothing: so room
//! can be made before a change is carried out, and carrying it out can't fail.
//!
//! Whatever makes room may fail, and shows nothing new; whatever changes what is
//! shown needs no memory. Keep the two apart.

ghost use Rattle.std.specs.Prelude.{◌≡◌, All, IsSome, IfOk, OnOk, OnErr, if◌then◌else◌, map, filter, take};
ghost use Rattle.std.specs.List.{filter_map};
ghost use Rattle.std.specs.Option.{option_copied};
ghost use Rattle.std.specs.FinMap as finite;
ghost use Rattle.std.specs.Ordering.{eq_by_cmp};
ghost use Rattle.std.specs.BTreeMap.{get};
ghost use Rattle.ob_io.specs.Store.{empty_store, next_of, rows_after, holders_after, has_link, changed, all_changed, IsChangeFit};
ghost use Rattle.ob_io.specs.declared.store.Change.{Change};
ghost use Rattle.ob_base.specs.Rising.{IsRising};
ghost use Rattle.ob_io.specs.Kept.{IsStoreFit};
ghost use Rattle.ob_io.specs.Slots.{content, shown_store, HasRoom};

use crate::row_copy::{copy_row, in_order};
use crate::store::{Change, KeptRow, Link};
use ob_base::{FieldNo, ModelNo, NoMemory, RecId, RefList, RowKey, Sequence};
use std::alloc::Global;
use std::collections::BTreeMap;
use std::collections::btree_map::Range;
use std::ops::Bound;

/// A slot for each row, and one for each next id.
#[derive(Debug, Drop)]
pub(crate) struct Slots {
    pub(crate) rows: BTreeMap<RowKey, Option<KeptRow>>,
    pub(crate) next_ids: BTreeMap<u16, Option<u64>>,
}

impl Slots {
    /// No slots.
    pub(crate) fn new(alloc: Global) -> Slots
        ensures { shown_store result ≡ empty_store }
    {
        Slots {
            rows: BTreeMap::new(alloc),
            next_ids: BTreeMap::new(alloc),
        }
    }

    /// The row of the key, where there is one.
    pub(crate) fn row(&self, key: RowKey) -> Option<&KeptRow>
        ensures { option_copied result ≡ finite.get (shown_store self.now).rows key }
    {
        match self.rows.get(&key) {
            Some(slot) => slot.as_ref(),
            None => None,
        }
    }

    /// The model's next id.
    pub(crate) fn next_id(&self, model: ModelNo) -> u64
        ensures { result ≡ next_of (shown_store self.now) model }
    {
        self.next_ids.get(&model.0).copied().flatten().unwrap_or(1)
    }

    /// Copies of the first rows of the model with an id above that one, at most so many.
    pub(crate) fn page(
        &self,
        alloc: Global,
        model: ModelNo,
        after: RecId,
        most: u32,
    ) -> Result<Sequence<KeptRow>, NoMemory>
        requires { IsStoreFit (shown_store self.now) }
        ensures { IfOk result (λ rows. rows ≡ take most (rows_after (shown_store self.now) model after)) }
    {
        let (start, end) = keys_after(model, after);
        copy_first(alloc, self.rows.range((start, end)), most)
    }

    /// The ids of the first rows of the model with an id above that one and a link by
    /// the field to the target, at most so many.
    pub(crate) fn holders(
        &self,
        alloc: Global,
        model: ModelNo,
        field: FieldNo,
        target: RecId,
        after: RecId,
        most: u32,
    ) -> Result<RefList, NoMemory>
        requires { IsStoreFit (shown_store self.now) }
        ensures { IfOk result (λ ids. ids ≡ take most (holders_after (shown_store self.now) model field target after)) }
    {
        let (start, end) = keys_after(model, after);
        let link = Link { field, target };
        first_holders(alloc, self.rows.range((start, end)), link, most)
    }

    /// Carries out the changes in order, or none of them.
    pub(crate) fn change_all(&mut self, changes: Vec<Change>) -> Result<(), NoMemory>
        requires { All IsChangeFit changes.items }
        ensures ok { OnOk result (shown_store self.new ≡ all_changed changes.items (shown_store self.old)) }
        ensures err { OnErr result (shown_store self.new ≡ shown_store self.old) }
    {
        self.make_room(&changes)?;
        self.carry_out(changes);
        Ok(())
    }

    /// Drops the slots of these changes that are vacant, so that none is left over.
    pub(crate) fn drop_vacant(&mut self, changes: &[Change])
        ensures { shown_store self.new ≡ shown_store self.old }
    {
        for change in changes {
            self.drop_one_vacant(change);
        }
    }

    fn drop_one_vacant(&mut self, change: &Change)
        ensures { shown_store self.new ≡ shown_store self.old }
    {
        match change {
            Change::Put { model, row } => drop_if_vacant(
                &mut self.rows,
                RowKey {
                    model: *model,
                    id: row.id,
                },
            ),
            Change::Gone { model, id } => drop_if_vacant(
                &mut self.rows,
                RowKey {
                    model: *model,
                    id: *id,
                },
            ),
            Change::Next { model, next: _ } => drop_if_vacant(&mut self.next_ids, model.0),
        }
    }

    /// Makes a slot for what each of the changes changes.
    fn make_room(&mut self, changes: &[Change]) -> Result<(), NoMemory>
        ensures same { shown_store self.new ≡ shown_store self.old }
        ensures room { OnOk result (All (HasRoom self.new) changes.now) }
    {
        for change in changes {
            self.make_one_slot(change)?;
        }
        Ok(())
    }

    fn make_one_slot(&mut self, change: &Change) -> Result<(), NoMemory>
        ensures same { shown_store self.new ≡ shown_store self.old }
        ensures room { OnOk result (HasRoom self.new change.now) }
        ensures kept { (c : Change) → HasRoom self.old c → HasRoom self.new c }
    {
        match change {
            Change::Put { model, row } => make_slot(
                &mut self.rows,
                RowKey {
                    model: *model,
                    id: row.id,
                },
            ),
            Change::Gone { model, id } => make_slot(
                &mut self.rows,
                RowKey {
                    model: *model,
                    id: *id,
                },
            ),
            Change::Next { model, next: _ } => make_slot(&mut self.next_ids, model.0),
        }
    }

    /// Carries out the changes in order.
    fn carry_out(&mut self, changes: Vec<Change>)
        requires room { All (HasRoom self.old) changes.items }
        requires fit { All IsChangeFit changes.items }
        ensures { shown_store self.new ≡ all_changed changes.items (shown_store self.old) }
    {
        for change in changes {
            self.carry_out_one(change);
        }
    }

    fn carry_out_one(&mut self, change: Change)
        requires room { HasRoom self.old change }
        requires fit { IsChangeFit change }
        ensures carried { shown_store self.new ≡ changed change (shown_store self.old) }
        ensures kept { (c : Change) → HasRoom self.old c → HasRoom self.new c }
    {
        match change {
            Change::Put { model, row } => {
                let key = RowKey { model, id: row.id };
                set_slot(&mut self.rows, key, Some(in_order(row)));
            }
            Change::Gone { model, id } => set_slot(&mut self.rows, RowKey { model, id }, None),
            Change::Next { model, next } => set_slot(&mut self.next_ids, model.0, Some(next)),
        }
    }
}

/// Makes a vacant slot for the key, unless it has one.
fn make_slot<K: Ord + Drop, V: Drop>(
    slots: &mut BTreeMap<K, Option<V>>,
    key: K,
) -> Result<(), NoMemory>
    ensures same { (q : K) → content K.cmp slots.new q ≡ content K.cmp slots.old q }
    ensures room { OnOk result (IsSome (get K.cmp slots.new key)) }
    ensures kept { (q : K) → IsSome (get K.cmp slots.old q) → IsSome (get K.cmp slots.new q) }
{
    if !slots.contains_key(&key) {
        slots.insert(key, None)?;
    }
    Ok(())
}

/// Drops the key's slot where it has a vacant one.
fn drop_if_vacant<K: Ord + Drop, V: Drop>(slots: &mut BTreeMap<K, Option<V>>, key: K)
    ensures { (q : K) → content K.cmp slots.new q ≡ content K.cmp slots.old q }
{
    if let Some(None) = slots.get(&key) {
        slots.remove(&key);
    }
}

/// Puts this into the key's slot, or makes it vacant.
fn set_slot<K: Ord + Drop, V: Drop>(
    slots: &mut BTreeMap<K, Option<V>>,
    key: K,
    new_content: Option<V>,
)
    requires { IsSome (get K.cmp slots.old key) }
    ensures set { (q : K) → content K.cmp slots.new q ≡ (if eq_by_cmp K.cmp key q then new_content else content K.cmp slots.old q) }
    ensures kept { (q : K) → IsSome (get K.cmp slots.old q) → IsSome (get K.cmp slots.new q) }
{
    // The key has a slot, so no memory is needed.
    let _ = slots.insert(key, new_content);
}

/// The bounds of the model's keys with an id above that one.
fn keys_after(model: ModelNo, after: RecId) -> (Bound<RowKey>, Bound<RowKey>)
    ensures { result ≡ (Bound.Excluded (record { model = model; id = after }), Bound.Included (record { model = model; id = record { 0 = u64.MAX } })) }
{
    let last = RowKey {
        model,
        id: RecId(u64::MAX),
    };
    (
        Bound::Excluded(RowKey { model, id: after }),
        Bound::Included(last),
    )
}

/// Copies of the first rows that the slots hold, at most so many.
fn copy_first(
    alloc: Global,
    slots: Range<'_, RowKey, Option<KeptRow>>,
    most: u32,
) -> Result<Sequence<KeptRow>, NoMemory>
    ensures { IfOk result (λ rows. rows ≡ take most (filter_map (λ e. e.1) slots.entry)) }
{
    let mut rows = Sequence::new(alloc);
    for (_, slot) in slots {
        if rows.len() >= most as usize {
            return Ok(rows);
        }
        if let Some(row) = slot {
            rows.push(copy_row(alloc, row)?)?;
        }
    }
    Ok(rows)
}

/// The ids of the first rows that the slots hold with this link, at most so many.
fn first_holders(
    alloc: Global,
    slots: Range<'_, RowKey, Option<KeptRow>>,
    link: Link,
    most: u32,
) -> Result<RefList, NoMemory>
    requires { IsRising (map (λ row. row.id) (filter_map (λ e. e.1) slots)) }
    ensures { IfOk result (λ ids. ids ≡ take most (map (λ row. row.id) (filter (has_link link.field link.target) (filter_map (λ e. e.1) slots.entry)))) }
{
    let mut ids = RefList::new(alloc);
    for (_, slot) in slots {
        if ids.len() >= most as usize {
            return Ok(ids);
        }
        if let Some(row) = slot {
            if is_holder(row, link) {
                ids.push(row.id)?;
            }
        }
    }
    Ok(ids)
}

/// Whether the row has the link.
fn is_holder(row: &KeptRow, link: Link) -> bool
    ensures { result ≡ has_link link.field link.target row.now }
{
    row.links.as_slice().contains(&link)
}
