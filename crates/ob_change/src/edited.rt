//! The cells that a change edits, by the rows that it touched: their own, and the lists of the
//! rows that they name on one side alone. No list that rows make is read for it. How they are
//! found may change here at will.

ghost use Rattle.std.specs.Prelude.{◌≡◌, ◌≢◌, ◌↔◌, ◌<◌, ◌≤◌, [], Contains, IfNone, IfOk, IfSome, IsTrue, OnOk, Some, length, slice_get};
ghost use Rattle.std.specs.List.{AllWithin, HoldsAt};
ghost use Rattle.std.specs.Option.{option_map_or};
ghost use Rattle.ob_base.specs.Rising.{IsRising};
ghost use Rattle.ob_base.specs.declared.id.FieldNo.{FieldNo};
ghost use Rattle.ob_base.specs.declared.id.RecId.{RecId};
ghost use Rattle.ob_change.specs.Changing.{AreEdited, models_of, sides_of};
ghost use Rattle.ob_change.specs.EditedSteps.{CellEdits, EditsKept, Gains, IsCellOf, IsGiven, IsListBy, IsThereOnce, ListsBackIn, NamesOnce, RowEdits, StandsAlone, StandsOnce};
ghost use Rattle.ob_schema.specs.Models.{FieldHas};
ghost use Rattle.ob_schema.specs.Plain.{plain_at, targets_of};

use crate::change::Change;
use crate::once::once_each;
use ob_base::{Cell, FieldNo, ModelNo, NoMemory, RecId, RowKey, Value, value_eq};
use ob_schema::{FieldInfo, Origin, Schema};
use ob_sound::lists_alone_are_edited;
use ob_tables::targets_of;
use std::alloc::Global;

/// The cells that a change edits, each once: of `id`, of plain fields, and of lists that other rows
/// make.
pub fn edited_cells(change: Change<'_, '_>) -> Result<Vec<Cell>, NoMemory>
    ensures { IfOk result (λ cells. AreEdited change.entry cells.items) }
{
    let cells = edited_by_rows(change)?;
    once_each(change.alloc, cells.as_slice())
}

/// The cells that it edits, row by row: a list comes up once for each touched row that edits it.
fn edited_by_rows(change: Change<'_, '_>) -> Result<Vec<Cell>, NoMemory>
    ensures { IfOk result (λ cells. AreEdited change.entry cells.items) }
{
    // The laws that the rows of a list keep the field back, and that untouched rows keep their own
    // values.
    change.schema.parts_fit_together();
    lists_alone_are_edited();
    let mut cells = Vec::new(change.alloc);
    for key in change.touched {
        add_row(change, *key, &mut cells)?;
    }
    Ok(cells)
}

/// Adds the cells that the change edits by a touched row.
fn add_row(change: Change<'_, '_>, key: RowKey, cells: &mut Vec<Cell>) -> Result<(), NoMemory>
    ensures { OnOk result (Gains (RowEdits (models_of change.entry) (sides_of change.entry) key)
        cells.old.items cells.new.items) }
{
    let count = given_count(change.schema, key.model);
    for place in 0..count {
        let own = cell_in(key, FieldNo(place + 1));
        add_field(change, own, cells)?;
    }
    Ok(())
}

/// Adds the cells that it edits by one cell of a touched row.
fn add_field(change: Change<'_, '_>, own: Cell, cells: &mut Vec<Cell>) -> Result<(), NoMemory>
    ensures { OnOk result (Gains (CellEdits (models_of change.entry) (sides_of change.entry) own)
        cells.old.items cells.new.items) }
{
    let Some(info) = change.schema.find_field(own.model, own.field) else {
        return Ok(());
    };
    if !is_given(info) {
        return Ok(());
    }
    if info.inverse.or(info.mirror).is_none() {
        return add_kept(change, own, info.relation, cells);
    }
    if is_there_once(change, own) {
        cells.push(own)?;
    }
    Ok(())
}

/// Adds a cell whose value stands in its row, if it is edited, and then the lists of the rows that
/// it names on one side alone.
fn add_kept(
    change: Change<'_, '_>,
    own: Cell,
    relation: Option<ModelNo>,
    cells: &mut Vec<Cell>,
) -> Result<(), NoMemory>
    requires { FieldHas (models_of change) IsGiven own.model own.field }
    ensures { OnOk result (Gains
        (EditsKept (models_of change.entry) (sides_of change.entry) relation own)
        cells.old.items cells.new.items) }
{
    let Some(ids) = named_once(change, own)? else {
        return Ok(());
    };
    cells.push(own)?;
    match relation {
        Some(target) => add_named(change, own, target, ids.as_slice(), cells),
        None => Ok(()),
    }
}

/// The rows that an edited cell names on one side alone; none where the cell isn't edited.
fn named_once(change: Change<'_, '_>, own: Cell) -> Result<Option<Vec<RecId>>, NoMemory>
    requires { FieldHas (models_of change) IsGiven own.model own.field }
    ensures same { IfOk result (λ ids. IfNone ids
        (plain_at (sides_of change.entry).before (models_of change.entry) own
        ≡ plain_at (sides_of change.entry).behind (models_of change.entry) own)) }
    ensures once { IfOk result (λ ids. IfSome ids
        (λ ids. NamesOnce (models_of change.entry) (sides_of change.entry) own ids.items)) }
{
    let (before, behind) = values(change, own)?;
    if are_same(&before, &behind) {
        return Ok(None);
    }
    let ids = standing_once(change.alloc, ids_of(&before), ids_of(&behind))?;
    Ok(Some(ids))
}

/// The value of a plain cell before the change and behind it.
fn values(change: Change<'_, '_>, own: Cell) -> Result<(Option<Value>, Option<Value>), NoMemory>
    requires { FieldHas (models_of change) IsGiven own.model own.field }
    ensures before { IfOk result (λ both. both.0
        ≡ plain_at (sides_of change.entry).before (models_of change.entry) own) }
    ensures behind { IfOk result (λ both. both.1
        ≡ plain_at (sides_of change.entry).behind (models_of change.entry) own) }
{
    let before = change.before.plain(own)?;
    let behind = change.behind.plain(own)?;
    Ok((before, behind))
}

/// Adds the lists of these rows of a model by the field of a cell: a field of the model at a time,
/// so that each row is looked at for its lists alone.
fn add_named(
    change: Change<'_, '_>,
    own: Cell,
    target: ModelNo,
    ids: &[RecId],
    cells: &mut Vec<Cell>,
) -> Result<(), NoMemory>
    ensures { OnOk result (Gains
        (ListsBackIn (models_of change.entry) (sides_of change.entry) own target ids.now)
        cells.old.items cells.new.items) }
{
    let count = given_count(change.schema, target);
    for place in 0..count {
        let field = FieldNo(place + 1);
        if is_list_by(change.schema, own, target, field) {
            add_cells(change, target, field, ids, cells)?;
        }
    }
    Ok(())
}

/// Adds the cells of a field of those rows that are there behind the change. What was there before
/// it alone is touched itself.
fn add_cells(
    change: Change<'_, '_>,
    model: ModelNo,
    field: FieldNo,
    ids: &[RecId],
    cells: &mut Vec<Cell>,
) -> Result<(), NoMemory>
    ensures { OnOk result (Gains (IsCellOf (sides_of change.entry) model field ids.now)
        cells.old.items cells.new.items) }
{
    for id in ids {
        if change.behind.has_row(model, *id) {
            let row = RowKey { model, id: *id };
            cells.push(cell_in(row, field))?;
        }
    }
    Ok(())
}

/// Whether a field of a model is the list of the rows that name its row by the field of a cell.
fn is_list_by(schema: &Schema, own: Cell, model: ModelNo, field: FieldNo) -> bool
    ensures { IsTrue result ↔ FieldHas schema.now (IsListBy own.model own.field) model field }
{
    let Some(info) = schema.find_field(model, field) else {
        return false;
    };
    matches!(info.origin, Origin::Plain)
        && info.inverse.or(info.mirror) == Some(own.field)
        && info.relation == Some(own.model)
}

/// Whether calls give the field's value, or it is the row's id.
fn is_given(info: &FieldInfo) -> bool
    ensures { IsTrue result ↔ IsGiven info.now }
{
    matches!(info.origin, Origin::Id | Origin::Plain)
}

/// The number up to which fields of a model may be given: conditions, behind it, are computed.
fn given_count(schema: &Schema, model: ModelNo) -> u16
    ensures { (field : FieldNo) → FieldHas schema.now IsGiven model field
        → (1 ≤ field.0) × (field.0 ≤ result) }
{
    schema.parts_fit_together();
    match schema.find_model(model) {
        Some(info) => info.fields.len() as u16,
        None => 0,
    }
}

/// Whether the row of a cell is there on one side alone.
fn is_there_once(change: Change<'_, '_>, own: Cell) -> bool
    ensures { IsTrue result ↔ IsThereOnce (sides_of change.entry) own.model own.id }
{
    change.before.has_row(own.model, own.id) != change.behind.has_row(own.model, own.id)
}

fn cell_in(row: RowKey, field: FieldNo) -> Cell
    ensures { result ≡ Rattle.ob_change.specs.EditedSteps.cell_in row field }
{
    Cell {
        model: row.model,
        id: row.id,
        field,
    }
}

/// Whether two values are one, or neither is there.
fn are_same(was: &Option<Value>, is: &Option<Value>) -> bool
    ensures { IsTrue result ↔ (was.now ≡ is.now) }
{
    match (was, is) {
        (Some(was), Some(is)) => value_eq(was, is),
        (None, None) => true,
        _ => false,
    }
}

/// The rows that a value names, if it is there.
fn ids_of(value: &Option<Value>) -> &[RecId]
    ensures same { result.now ≡ option_map_or targets_of value.now [] }
    ensures rising { IsRising result.now }
{
    match value {
        Some(value) => targets_of(value),
        None => &[],
    }
}

/// The ids that stand in one of two lists alone.
fn standing_once(alloc: Global, was: &[RecId], is: &[RecId]) -> Result<Vec<RecId>, NoMemory>
    requires was { IsRising was.now }
    requires is { IsRising is.now }
    ensures { IfOk result
        (λ ids. (id : RecId) → Contains ids.items id ↔ StandsOnce was.now is.now id) }
{
    let mut ids = Vec::new(alloc);
    add_alone(&mut ids, was, is)?;
    add_alone(&mut ids, is, was)?;
    Ok(ids)
}

/// Adds the ids of a list that don't stand in another one. Both rise, so that one way through each
/// finds them.
fn add_alone(ids: &mut Vec<RecId>, from: &[RecId], others: &[RecId]) -> Result<(), NoMemory>
    requires from { IsRising from.now }
    requires others { IsRising others.now }
    ensures { OnOk result (Gains (StandsAlone from.now others.now)
        ids.old.items ids.new.items) }
{
    let mut place = 0;
    for id in from {
        place = place_from(others, place, *id);
        if !stands_at(others, place, *id) {
            ids.push(*id)?;
        }
    }
    Ok(())
}

/// The first place from one on at which no lower id stands.
fn place_from(ids: &[RecId], from: usize, id: RecId) -> usize
    requires { from ≤ length ids.now }
    ensures on { from ≤ result }
    ensures within { result ≤ length ids.now }
    ensures lower { AllWithin (λ other. other.0 < id.0) ids.now from result }
    ensures not_lower { result < length ids.now
        → HoldsAt (λ other. id.0 ≤ other.0) ids.now result }
{
    for place in from..ids.len() {
        if ids[place].0 >= id.0 {
            return place;
        }
    }
    ids.len()
}

/// Whether an id stands at a place.
fn stands_at(ids: &[RecId], place: usize, id: RecId) -> bool
    ensures { IsTrue result ↔ (slice_get ids.now place ≡ Some id) }
{
    place < ids.len() && ids[place].0 == id.0
}
