//! Rows that a change takes away and that others still name: a cell that does is told. How it is
//! found may change here at will: by the lists of the rows that name one, for each relation of the
//! registry.

ghost use Rattle.std.specs.Prelude.{◌≡◌, ◌↔◌, Any, Contains, IfOk, IsTrue, Some};
ghost use Rattle.ob_base.specs.declared.id.Cell.{Cell};
ghost use Rattle.ob_base.specs.declared.id.RowKey.{RowKey};
ghost use Rattle.ob_change.specs.Changing.{models_of, sides_of};
ghost use Rattle.ob_change.specs.Testing.{HoldsOne, IsHeldBy, TellsOne};
ghost use Rattle.ob_schema.specs.Models.{field_at};
ghost use Rattle.ob_sound.specs.EditsBreak.{IsGone, NamesGone};

use crate::change::Change;
use ob_base::limits::MAX_MODELS;
use ob_base::{Cell, FieldNo, ModelNo, NoMemory, RecId, RowKey};
use ob_schema::FieldInfo;
use ob_sound::gone_rows_are_listed;
use ob_tables::Tables;

/// A cell of a row that is there and still names one that the change takes away.
pub(crate) fn naming_gone(change: Change<'_, '_>) -> Result<Option<Cell>, NoMemory>
    ensures { IfOk result (TellsOne (NamesGone (models_of change.entry) (sides_of change.entry))) }
{
    // The laws by which a row that is gone is named still where it is listed.
    change.schema.parts_fit_together();
    gone_rows_are_listed();
    let gone = gone_rows(change)?;
    if gone.is_empty() {
        return Ok(None);
    }
    for place in 0..MAX_MODELS {
        let model = ModelNo(place as u16 + 1);
        if let Some(cell) = holding(change, model, gone.as_slice())? {
            return Ok(Some(cell));
        }
    }
    Ok(None)
}

/// The rows that the change takes away. One may be told twice.
fn gone_rows(change: Change<'_, '_>) -> Result<Vec<RowKey>, NoMemory>
    ensures { IfOk result (λ gone. (key : RowKey) → Contains gone.items key
        ↔ IsGone (models_of change.entry) (sides_of change.entry) key.model key.id) }
{
    let mut gone = Vec::new(change.alloc);
    for key in change.touched {
        if is_gone(change, *key) {
            gone.push(*key)?;
        }
    }
    Ok(gone)
}

/// Whether the change takes a row away.
fn is_gone(change: Change<'_, '_>, key: RowKey) -> bool
    ensures { IsTrue result
        ↔ IsGone (models_of change.entry) (sides_of change.entry) key.model key.id }
{
    change.before.has_row(key.model, key.id) && !change.behind.has_row(key.model, key.id)
}

/// A cell of a model's row that names one of some rows behind the change.
fn holding(
    change: Change<'_, '_>,
    model: ModelNo,
    keys: &[RowKey],
) -> Result<Option<Cell>, NoMemory>
    ensures { IfOk result (TellsOne (λ (cell : Cell). (cell.model ≡ model)
        × HoldsOne (models_of change.entry) (sides_of change.entry).behind keys.now cell)) }
{
    // The law by which conditions aren't kept.
    change.schema.parts_fit_together();
    let Some(info) = change.schema.find_model(model) else {
        return Ok(None);
    };
    for (place, info) in info.fields.as_slice().iter().enumerate() {
        let field = FieldNo(place as u16 + 1);
        if let Some(id) = holder_by(change.behind, model, field, info, keys)? {
            return Ok(Some(Cell { model, id, field }));
        }
    }
    Ok(None)
}

/// A row of a model that names one of some rows by a field.
fn holder_by(
    tables: &Tables<'_>,
    model: ModelNo,
    number: FieldNo,
    field: &FieldInfo,
    keys: &[RowKey],
) -> Result<Option<RecId>, NoMemory>
    requires { field_at tables.now.models model number ≡ Some field.now }
    ensures { IfOk result (TellsOne (λ holder.
        Any (λ key. IsHeldBy tables.now.tables model number field.now key holder) keys.now)) }
{
    for key in keys {
        if let Some(holder) = holder_of(tables, model, number, field, *key)? {
            return Ok(Some(holder));
        }
    }
    Ok(None)
}

/// A row of a model that names a row by a field.
fn holder_of(
    tables: &Tables<'_>,
    model: ModelNo,
    number: FieldNo,
    field: &FieldInfo,
    key: RowKey,
) -> Result<Option<RecId>, NoMemory>
    requires { field_at tables.now.models model number ≡ Some field.now }
    ensures { IfOk result (TellsOne (IsHeldBy tables.now.tables model number field.now key)) }
{
    if !field.is_plain_kept() || field.relation != Some(key.model) {
        return Ok(None);
    }
    tables.fit_together();
    let holders = tables.naming(model, number, key.id)?;
    Ok(holders.as_slice().first().copied())
}
