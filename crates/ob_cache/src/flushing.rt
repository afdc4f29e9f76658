//! What a keeper has to change so that it keeps other tables: of the rows that may be kept in
//! another form those that are, and all next ids. No other row is looked at.

ghost use Rattle.std.specs.Prelude.{◌≡◌, ◌↔◌, ◌≤◌, All, Contains, IfOk, IsSome, IsTrue, None, Ok, OnOk, Some, map, option_map};
ghost use Rattle.ob_base.specs.declared.id.RowKey.{RowKey};
ghost use Rattle.ob_cache.specs.Changing.{ChangesTo, KeepsOthers, NextsStay, RowsStay, RowsTo, TurnsRow, form_of, next_made};
ghost use Rattle.ob_cache.specs.Kept.{kept_columns, kept_value};
ghost use Rattle.ob_cache.specs.Standing.{FitNextIds, max_next_id};
ghost use Rattle.ob_codec.specs.RowForm.{HoldAll};
ghost use Rattle.ob_io.specs.Store.{IsChangeFit};
ghost use Rattle.ob_schema.specs.Models.{HasModel, field_at, kept_at, model_at};
ghost use Rattle.ob_schema.specs.Tables.{next_of, row_at};
ghost use Rattle.ob_schema.specs.Val.{val};

use crate::kept_rows::kept_row;
use crate::once::once_each;
use crate::whole::Whole;
use ob_base::limits::MAX_MODELS;
use ob_base::{Cell, FieldNo, ModelNo, NoMemory, RecId, RowKey, Sequence, Value, value_eq};
use ob_io::Change;
use ob_schema::Schema;
use std::alloc::Global;

/// The changes from tables that are kept to others: of the rows of some keys those that went,
/// that came or that are kept in another form, and the next ids. Each other row is kept as it was;
/// a key may stand twice.
pub(crate) fn changes(
    alloc: Global,
    schema: &Schema,
    old: &Whole<'_>,
    new: &Whole<'_>,
    keys: &[RowKey],
) -> Result<Sequence<Change>, NoMemory>
    requires old { old.now.models ≡ schema.now }
    requires new { new.now.models ≡ schema.now }
    requires next_ids { FitNextIds schema.now new.now.tables }
    requires others { KeepsOthers old.now new.now keys.now }
    ensures { IfOk result (ChangesTo old.now new.now) }
{
    // The law of the registry: how many models there may be.
    old.laws();
    let rows = once_each(alloc, keys)?;
    let mut changes = row_changes(alloc, schema, old, new, rows.as_slice())?;
    for place in 0..MAX_MODELS {
        let model = ModelNo(place as u16 + 1);
        if schema.find_model(model).is_some() {
            add_next(old, new, model, &mut changes)?;
        }
    }
    Ok(changes)
}

/// The changes of the rows of some keys.
fn row_changes(
    alloc: Global,
    schema: &Schema,
    old: &Whole<'_>,
    new: &Whole<'_>,
    keys: &[RowKey],
) -> Result<Sequence<Change>, NoMemory>
    requires old { old.now.models ≡ schema.now }
    requires new { new.now.models ≡ schema.now }
    requires others { KeepsOthers old.now new.now keys.now }
    ensures { IfOk result (RowsTo old.now new.now) }
{
    let mut changes = Sequence::new(alloc);
    for key in keys {
        add_row(alloc, schema, old, new, *key, &mut changes)?;
    }
    Ok(changes)
}

/// Adds what changes of a row, if its model is there.
fn add_row(
    alloc: Global,
    schema: &Schema,
    old: &Whole<'_>,
    new: &Whole<'_>,
    key: RowKey,
    changes: &mut Sequence<Change>,
) -> Result<(), NoMemory>
    requires old { old.now.models ≡ schema.now }
    requires new { new.now.models ≡ schema.now }
    ensures { OnOk result (TurnsRow old.now.models key (form_of old.now key) (form_of new.now key) changes.old changes.new) }
{
    if schema.find_model(key.model).is_none() {
        return Ok(());
    }
    if new.tables().has_row(key.model, key.id) {
        add_put(alloc, schema, old, new, key, changes)
    } else {
        add_gone(old, new, key, changes)
    }
}

/// Adds that a row went, if it was there.
fn add_gone(
    old: &Whole<'_>,
    new: &Whole<'_>,
    key: RowKey,
    changes: &mut Sequence<Change>,
) -> Result<(), NoMemory>
    requires same { old.now.models ≡ new.now.models }
    requires model { HasModel old.now.models key.model }
    requires none { row_at new.now.tables key.model key.id ≡ None }
    ensures { OnOk result (TurnsRow old.now.models key (form_of old.now key) (form_of new.now key) changes.old changes.new) }
{
    // The law of sound tables: each id is within its limits.
    old.laws();
    if old.tables().has_row(key.model, key.id) {
        changes.push(Change::Gone {
            model: key.model,
            id: key.id,
        })?;
    }
    Ok(())
}

/// Adds a row that is there, if it came or is kept in another form.
fn add_put(
    alloc: Global,
    schema: &Schema,
    old: &Whole<'_>,
    new: &Whole<'_>,
    key: RowKey,
    changes: &mut Sequence<Change>,
) -> Result<(), NoMemory>
    requires over { old.now.models ≡ schema.now }
    requires same { old.now.models ≡ new.now.models }
    requires model { HasModel old.now.models key.model }
    requires row { IsSome (row_at new.now.tables key.model key.id) }
    ensures { OnOk result (TurnsRow old.now.models key (form_of old.now key) (form_of new.now key) changes.old changes.new) }
{
    // The laws of both: a row is kept by its values, which its fields may hold.
    old.laws();
    new.laws();
    let values = kept_values(alloc, schema, new, key.model, key.id)?;
    if !has_values(alloc, schema, old, key.model, key.id, values.as_slice())? {
        let row = kept_row(alloc, schema, key.model, key.id, values.as_slice())?;
        changes.push(Change::Put {
            model: key.model,
            row,
        })?;
    }
    Ok(())
}

/// Adds a model's next id, if it is another one.
fn add_next(
    old: &Whole<'_>,
    new: &Whole<'_>,
    model: ModelNo,
    changes: &mut Sequence<Change>,
) -> Result<(), NoMemory>
    requires same { old.now.models ≡ new.now.models }
    requires model { HasModel old.now.models model }
    requires fits { next_of new.now.tables model ≤ max_next_id }
    ensures fit { OnOk result (All IsChangeFit changes.old → All IsChangeFit changes.new) }
    ensures rows { OnOk result (RowsStay changes.old changes.new) }
    ensures others { OnOk result (NextsStay model changes.old changes.new) }
    ensures next { OnOk result (next_made changes.old model (next_of old.now.tables model) ≡ next_of old.now.tables model
        → next_made changes.new model (next_of old.now.tables model) ≡ next_of new.now.tables model) }
{
    let next = new.tables().next(model);
    if next != old.tables().next(model) {
        changes.push(Change::Next { model, next })?;
    }
    Ok(())
}

/// Whether a row is there, with these values of its kept fields.
fn has_values(
    alloc: Global,
    schema: &Schema,
    whole: &Whole<'_>,
    model: ModelNo,
    id: RecId,
    values: &[Value],
) -> Result<bool, NoMemory>
    requires over { whole.now.models ≡ schema.now }
    requires model { HasModel schema.now model }
    ensures { IfOk result (λ has. IsTrue has → IsSome (row_at whole.now.tables model id)
        × (option_map (λ info. map (kept_value whole.now.models whole.now.tables model id) (kept_columns info)) (model_at whole.now.models model) ≡ Some values.now)) }
{
    if !whole.tables().has_row(model, id) {
        return Ok(false);
    }
    let own = kept_values(alloc, schema, whole, model, id)?;
    Ok(are_same(own.as_slice(), values))
}

/// Whether values are the same, one by one.
fn are_same(a: &[Value], b: &[Value]) -> bool
    ensures { IsTrue result ↔ (a.now ≡ b.now) }
{
    if a.len() != b.len() {
        return false;
    }
    for (x, y) in a.iter().zip(b) {
        if !value_eq(x, y) {
            return false;
        }
    }
    true
}

/// The values of the kept fields of a row that is there.
fn kept_values(
    alloc: Global,
    schema: &Schema,
    whole: &Whole<'_>,
    model: ModelNo,
    id: RecId,
) -> Result<Sequence<Value>, NoMemory>
    requires over { whole.now.models ≡ schema.now }
    requires model { HasModel schema.now model }
    requires row { IsSome (row_at whole.now.tables model id) }
    ensures values { IfOk result (λ values. option_map (λ info. map (kept_value whole.now.models whole.now.tables model id) (kept_columns info)) (model_at whole.now.models model) ≡ Some values) }
    ensures hold { IfOk result (HoldAll (kept_at schema.now model)) }
{
    // The law of sound tables: each field may hold its value.
    whole.laws();
    let mut values = Sequence::new(alloc);
    for (place, field) in schema.fields(model).iter().enumerate() {
        if field.is_kept() {
            let field = FieldNo(place as u16 + 1);
            values.push(value_there(whole, Cell { model, id, field })?)?;
        }
    }
    Ok(values)
}

/// The value of a cell of a row that is there.
fn value_there(whole: &Whole<'_>, cell: Cell) -> Result<Value, NoMemory>
    requires field { IsSome (field_at whole.now.models cell.model cell.field) }
    requires row { IsSome (row_at whole.now.tables cell.model cell.id) }
    ensures { IfOk result (λ value. val whole.now.models whole.now.tables cell ≡ Ok value) }
{
    match whole.value(cell)? {
        Some(value) => Ok(value),
        None => unreachable!(),
    }
}
